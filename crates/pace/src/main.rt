// How fast messages are written, read and carried, on a fixed workload. It prints counts; with the argument `times`, also
// the time of one operation.
#![tactic(auto)]

mod carrying;
mod notices;

use std::env;
use std::time::Instant;

fn main(rt: HostRuntime) -> anyhow::Result<()> {
    run(&rt)
}

fn run(rt: &HostRuntime) -> anyhow::Result<()> {
    let times = wants_times(rt)?;
    bytes(rt, times)?;
    lanes(rt, times)
}

fn wants_times(rt: &HostRuntime) -> anyhow::Result<bool> {
    Ok(env::args(rt)?.any(|word| word.as_str() == "times"))
}

fn bytes(rt: &HostRuntime, times: bool) -> anyhow::Result<()> {
    timed(rt, times, "write notices of 16 cells written, sum", || {
        notices::write_all()
    })?;
    timed(rt, times, "write notices of 16 cells read, sum", || {
        notices::read_all()
    })
}

fn lanes(rt: &HostRuntime, times: bool) -> anyhow::Result<()> {
    for n in [2, 6] {
        println!(rt; "a carrier of {n} servers")?;
        timed(rt, times, "messages posted and taken as records", || {
            carrying::records(rt.alloc(), n)
        })?;
        timed(rt, times, "messages posted and taken as bytes", || {
            carrying::bytes(rt.alloc(), n)
        })?;
    }
    Ok(())
}

// Does the work, and prints its count; also the time of one operation where that is wanted.
fn timed<F: FnOnce() -> anyhow::Result<u64>>(
    rt: &HostRuntime,
    times: bool,
    what: &str,
    work: F,
) -> anyhow::Result<()>
    requires { F.IsAlwaysCallable work }
{
    let start = Instant::now(rt)?;
    let count = work()?;
    let took = start.elapsed(rt)?;
    println!(rt; "{what}: {count}")?;
    if times {
        let each = took.as_nanos() / u128::from(notices::TURNS);
        println!(rt; "  {each} ns each")?;
    }
    Ok(())
}

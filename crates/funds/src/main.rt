// Fund records shared by six offices: what each office keeps, and what is left when some are out of reach.
#![tactic(auto)]

mod lines;
mod offices;
mod report;

use field::gf256::Gf256;
use field::mod251::Mod251;

fn main(rt: HostRuntime) -> anyhow::Result<()> {
    run(&rt)
}

fn run(rt: &HostRuntime) -> anyhow::Result<()> {
    report::records(rt)?;
    report::task(rt, Mod251, "Over the whole numbers modulo 251")?;
    report::task(rt, Gf256, "Over GF(256)")?;
    lines::notice_as_bytes(rt)?;
    lines::both_carriers(rt)
}

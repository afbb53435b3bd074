// A lane with messages in it, posted to and taken from again and again, beside the lanes of more or fewer servers.
use crate::notices::{TURNS, notice};
use carrier::blocks::Blocks;
use carrier::lanes::Carrier;
use carrier::parcel::Parcel;
use carrier::place::{Place, blank_places};
use message::kinds::Message;
use std::alloc::Global;
use terms::limits::{MAX_LANES, MAX_PLACES};

// Places for the lanes of six servers.
const MEMORY: usize = MAX_LANES * MAX_PLACES;

pub fn records(heap: Global, n: usize) -> anyhow::Result<u64> {
    through::<Message>(heap, n)
}

pub fn bytes(heap: Global, n: usize) -> anyhow::Result<u64> {
    through::<Parcel>(heap, n)
}

fn through<P: Place + Drop>(heap: Global, n: usize) -> anyhow::Result<u64> {
    let memory = blank_places::<P>(heap, MEMORY)?;
    let mut carrier = Blocks::new(n, MAX_PLACES, memory)?;
    carry(&mut carrier)
}

// Half a lane of messages stays in the lane; the answer is how many were taken.
fn carry<C: Carrier>(c: &mut C) -> anyhow::Result<u64> {
    let m = notice(1);
    for _ in 0..MAX_PLACES / 2 {
        c.post(0, 1, m)?;
    }
    let mut taken = 0u64;
    for _ in 0..TURNS {
        c.post(0, 1, m)?;
        let _ = c.take(0, 1)?;
        taken = taken.wrapping_add(1);
    }
    Ok(taken)
}

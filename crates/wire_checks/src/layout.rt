// Layout of carriers at the edges of their bounds.
use carrier::blocks::Blocks;
use carrier::lanes::Carrier;
use carrier::parcel::Parcel;
use carrier::place::{Place, blank_places};
use message::kinds::Message;
use std::alloc::Global;
use std::process::Abort;
use std::test::Fail;

// Lays a carrier over so many places, and answers the refusal's number, if any, and the length of the memory that comes back.
fn laid<P: Place>(
    rt: &impl Abort,
    heap: Global,
    n: usize,
    p: usize,
    size: usize,
) -> Result<(Option<u8>, usize), Fail> {
    let memory = blank_places::<P>(heap, size)?;
    match Blocks::new(n, p, memory) {
        Ok(carrier) => {
            assert_eq!(rt; carrier.servers(), n);
            assert_eq!(rt; carrier.places(), p);
            Ok((None, carrier.into_memory().len()))
        }
        Err(back) => Ok((Some(back.refusal.number()), back.memory.len())),
    }
}

fn bounds<P: Place>(rt: &impl Abort, heap: Global) -> Result<(), Fail> {
    assert_eq!(rt; laid::<P>(rt, heap, 1, 1, 480)?, (Some(1), 480));
    assert_eq!(rt; laid::<P>(rt, heap, 2, 1, 2)?, (None, 2));
    assert_eq!(rt; laid::<P>(rt, heap, 2, 1, 1)?, (Some(6), 1));
    assert_eq!(rt; laid::<P>(rt, heap, 6, 16, 480)?, (None, 480));
    assert_eq!(rt; laid::<P>(rt, heap, 6, 16, 481)?, (None, 481));
    assert_eq!(rt; laid::<P>(rt, heap, 6, 16, 479)?, (Some(6), 479));
    assert_eq!(rt; laid::<P>(rt, heap, 7, 1, 480)?, (Some(1), 480));
    assert_eq!(rt; laid::<P>(rt, heap, 6, 0, 480)?, (Some(6), 480));
    assert_eq!(rt; laid::<P>(rt, heap, 6, 17, 600)?, (Some(6), 600));
    assert_eq!(rt; laid::<P>(rt, heap, 1, 17, 0)?, (Some(1), 0));
    Ok(())
}

#[test]
fn records(rt: HostRuntime) -> Result<(), Fail> {
    bounds::<Message>(&rt, rt.alloc())
}

#[test]
fn bytes(rt: HostRuntime) -> Result<(), Fail> {
    bounds::<Parcel>(&rt, rt.alloc())
}

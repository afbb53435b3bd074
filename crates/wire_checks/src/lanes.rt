// Lanes filled to their places and emptied, through both carriers.
use crate::samples::*;
use carrier::blocks::Blocks;
use carrier::lanes::Carrier;
use carrier::parcel::Parcel;
use carrier::place::{Place, blank_places};
use message::kinds::Message;
use std::alloc::Global;
use std::process::Abort;
use std::test::Fail;
use terms::refusal::Refusal;

fn numbered(read: u32) -> Result<Message, Fail> {
    Ok(Message::PlainReply {
        read,
        value: list(0, &[1, 2, 3])?,
    })
}

// The read number of a plain reply.
fn number_of(m: Result<Message, Refusal>) -> Option<u32> {
    match m {
        Ok(Message::PlainReply { read, .. }) => Some(read),
        _ => None,
    }
}

// Fills a lane from the number `first`, tries one more, and empties it.
fn round<C: Carrier>(
    rt: &impl Abort,
    c: &mut C,
    from: usize,
    to: usize,
    first: u32,
) -> Result<(), Fail> {
    let places = c.places().min(16) as u32;
    assert!(rt; first < 1000);
    for i in 0..places {
        assert_eq!(rt; refused(c.post(from, to, numbered(first + i)?)), None);
        assert_eq!(rt; number_of(c.first(from, to)), Some(first));
    }
    assert_eq!(rt; refused(c.post(from, to, numbered(first)?)), Some(17));
    assert_eq!(rt; refused(c.post(from, to, numbered(0)?)), Some(17));
    assert_eq!(rt; refused(c.len(to, from)), None);
    for i in 0..places {
        assert_eq!(rt; number_of(c.first(from, to)), Some(first + i));
        assert_eq!(rt; number_of(c.take(from, to)), Some(first + i));
    }
    assert_eq!(rt; refused(c.first(from, to)), Some(13));
    assert_eq!(rt; refused(c.take(from, to)), Some(13));
    assert_eq!(rt; refused(c.post(from, to, numbered(0)?)), Some(23));
    Ok(())
}

// A number for each lane.
fn mark(from: usize, to: usize) -> u32 {
    (from.min(6) * 10 + to.min(6) + 1) as u32
}

// Every lane, three times round; then one message is left in it while the others have their turns.
fn rounds<C: Carrier>(rt: &impl Abort, c: &mut C) -> Result<(), Fail> {
    let n = c.servers().min(6);
    for from in 0..n {
        for to in 0..n {
            if from != to {
                for turn in 0..3u32 {
                    round(rt, c, from, to, 1 + turn * 100)?;
                }
                assert_eq!(rt; refused(c.post(from, to, numbered(mark(from, to))?)), None);
            }
        }
    }
    left_over(rt, c);
    Ok(())
}

// Each lane still holds its own message, and no other.
fn left_over<C: Carrier>(rt: &impl Abort, c: &mut C) {
    let n = c.servers().min(6);
    for from in 0..n {
        for to in 0..n {
            if from != to {
                assert_eq!(rt; number_of(c.take(from, to)), Some(mark(from, to)));
                assert_eq!(rt; refused(c.first(from, to)), Some(13));
            }
        }
    }
}

fn refusals<C: Carrier>(rt: &impl Abort, c: &mut C) -> Result<(), Fail> {
    let n = c.servers();
    assert!(rt; n < 7);
    assert_eq!(rt; refused(c.post(n, n, numbered(0)?)), Some(7));
    assert_eq!(rt; refused(c.post(0, n, numbered(1)?)), Some(7));
    assert_eq!(rt; refused(c.post(1, 1, numbered(0)?)), Some(12));
    assert_eq!(rt; refused(c.first(n, 0)), Some(7));
    assert_eq!(rt; refused(c.first(1, 1)), Some(12));
    assert_eq!(rt; refused(c.first(0, 1)), Some(13));
    assert_eq!(rt; refused(c.take(0, n)), Some(7));
    assert_eq!(rt; refused(c.take(0, 0)), Some(12));
    assert_eq!(rt; refused(c.take(1, 0)), Some(13));
    assert_eq!(rt; refused(c.len(n, n)), Some(7));
    assert_eq!(rt; refused(c.len(0, 0)), Some(12));
    Ok(())
}

fn through<P: Place>(rt: &impl Abort, heap: Global, n: usize, p: usize) -> Result<(), Fail> {
    let memory = blank_places::<P>(heap, 480)?;
    let mut carrier = Blocks::new(n, p, memory).map_err(|back| back.refusal)?;
    refusals(rt, &mut carrier)?;
    rounds(rt, &mut carrier)
}

#[test]
fn records(rt: HostRuntime) -> Result<(), Fail> {
    through::<Message>(&rt, rt.alloc(), 2, 1)?;
    through::<Message>(&rt, rt.alloc(), 3, 4)?;
    through::<Message>(&rt, rt.alloc(), 6, 16)
}

#[test]
fn bytes(rt: HostRuntime) -> Result<(), Fail> {
    through::<Parcel>(&rt, rt.alloc(), 2, 1)?;
    through::<Parcel>(&rt, rt.alloc(), 3, 4)?;
    through::<Parcel>(&rt, rt.alloc(), 6, 16)
}

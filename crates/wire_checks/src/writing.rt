// Writing: what is refused, and what is left of the place.
use crate::samples::*;
use message::kinds::*;
use message::tag::Tag;
use std::test::Fail;
use wire::read::read_message;
use wire::write::write_message;

// The number of the refusal of writing the message into a place that is long enough.
fn number(m: &Message) -> Option<u8> {
    refused(write_message(m, &mut [0; ROOM]))
}

fn write_notice(object: u32, height: u32, counts: &[u32]) -> Result<Option<u8>, Fail> {
    Ok(number(&Message::WriteNotice {
        object,
        value: list(0, &[1])?,
        height,
        clock: list(0, counts)?,
    }))
}

fn tag_notice(object: u32, tag: Tag) -> Option<u8> {
    number(&Message::TagNotice { object, tag })
}

fn question(read: u32, object: u32, all: &[Tag]) -> Result<Option<u8>, Fail> {
    Ok(number(&Message::Question {
        read,
        object,
        tags: list(Tag::zero(), all)?,
    }))
}

#[test]
fn write_notices_at_their_bounds(rt: HostRuntime) -> Result<(), Fail> {
    assert_eq!(rt; write_notice(5, 6_000_000, &[1_000_000; 6])?, None);
    assert_eq!(rt; write_notice(6, 6_000_000, &[0; 6])?, Some(23));
    assert_eq!(rt; write_notice(5, 6_000_001, &[0; 6])?, Some(23));
    assert_eq!(rt; write_notice(5, 0, &[0; 6])?, Some(23));
    assert_eq!(rt; write_notice(5, 1, &[1_000_001, 0])?, Some(23));
    assert_eq!(rt; write_notice(5, 1, &[0, 1_000_001])?, Some(23));
    assert_eq!(rt; write_notice(5, 1, &[0; 2])?, None);
    assert_eq!(rt; write_notice(5, 1, &[0; 1])?, Some(23));
    Ok(())
}

#[test]
fn tags_at_their_bounds(rt: HostRuntime) {
    assert_eq!(rt; tag_notice(5, tag(6_000_000, 5)), None);
    assert_eq!(rt; tag_notice(6, tag(1, 0)), Some(23));
    assert_eq!(rt; tag_notice(0, tag(6_000_001, 5)), Some(23));
    assert_eq!(rt; tag_notice(0, tag(1, 6)), Some(23));
    assert_eq!(rt; tag_notice(0, tag(0, 0)), None);
    assert_eq!(rt; tag_notice(0, tag(0, 1)), Some(23));
}

#[test]
fn questions_at_their_bounds(rt: HostRuntime) -> Result<(), Fail> {
    assert_eq!(rt; question(1, 5, &[tag(1, 0); 6])?, None);
    assert_eq!(rt; question(0, 5, &[tag(1, 0)])?, Some(23));
    assert_eq!(rt; question(1_000_000, 0, &[tag(1, 0)])?, None);
    assert_eq!(rt; question(1_000_001, 0, &[tag(1, 0)])?, Some(23));
    assert_eq!(rt; question(1, 6, &[tag(1, 0)])?, Some(23));
    assert_eq!(rt; question(1, 0, &[])?, Some(23));
    assert_eq!(rt; question(1, 0, &[tag(1, 0), tag(0, 1)])?, Some(23));
    Ok(())
}

// A place that is too short stays as it is, and so do the bytes behind a record.
#[test]
fn places_of_every_length(rt: HostRuntime) -> Result<(), Fail> {
    for kind in ALL_KINDS {
        let m = sample(kind)?;
        let n = length(kind);
        for room in 0..ROOM {
            let mut bytes = [0xa5; ROOM];
            let answer = refused(write_message(&m, &mut bytes[0..room]));
            let (expected, written) = if room < n { (Some(25), 0) } else { (None, n) };
            assert_eq!(rt; answer, expected);
            assert!(rt; bytes.iter().skip(written).all(|b| *b == 0xa5));
        }
    }
    Ok(())
}

// What is read is written as the same bytes.
#[test]
fn there_and_back(rt: HostRuntime) -> Result<(), Fail> {
    for kind in ALL_KINDS {
        let mut bytes = [0; ROOM];
        let n = write_message(&sample(kind)?, &mut bytes)?;
        let (m, used) = read_message(&bytes)?;
        let mut again = [0; ROOM];
        assert_eq!(rt; write_message(&m, &mut again)?, n);
        assert_eq!(rt; used, n);
        assert!(rt; bytes == again);
    }
    Ok(())
}

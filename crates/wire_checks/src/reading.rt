// Reading: each fault by number, byte and layer, and each bound from both sides.
use crate::samples::*;
use std::process::Abort;
use std::test::Fail;
use wire::faults::Told;
use wire::kind::Kind;
use wire::kind::Kind::*;
use wire::read::read_message;
use wire::write::write_message;

// A fault's number, byte and layer.
type Fault = (u32, usize, u32);

// The kind of the sample, the words that are written into it, each at a byte, and what reading answers then: the bytes used,
// or the fault.
type Case = (Kind, &'static [(usize, u32)], Result<usize, Fault>);

const MARK: u32 = 0x8000_0000;

// Layer 1.
const MARKS: [Case; 6] = [
    (TagNotice, &[(0, MARK + 16)], Ok(20)),
    (TagNotice, &[(0, MARK + 84)], Err((24, 20, 3))),
    (TagNotice, &[(0, MARK + 85)], Err((19, 0, 1))),
    (TagNotice, &[(0, 0xffff_ffff)], Err((19, 0, 1))),
    (TagNotice, &[(0, 16)], Err((20, 0, 1))),
    (TagNotice, &[(0, 85)], Err((19, 0, 1))),
];

// Layer 2: the record ends within a field.
const SHORT: [Case; 24] = [
    (TagNotice, &[(0, MARK)], Err((19, 4, 2))),
    (TagNotice, &[(0, MARK + 3)], Err((19, 4, 2))),
    (TagNotice, &[(0, MARK + 4)], Err((19, 8, 2))),
    (TagNotice, &[(0, MARK + 8)], Err((19, 12, 2))),
    (TagNotice, &[(0, MARK + 12)], Err((19, 12, 2))),
    (TagNotice, &[(0, MARK + 15)], Err((19, 12, 2))),
    (WriteNotice, &[(0, MARK + 7)], Err((19, 8, 2))),
    (WriteNotice, &[(0, MARK + 8)], Err((19, 12, 2))),
    (WriteNotice, &[(0, MARK + 12)], Err((19, 12, 2))),
    (WriteNotice, &[(0, MARK + 15)], Err((19, 12, 2))),
    (WriteNotice, &[(0, MARK + 16)], Err((19, 20, 2))),
    (WriteNotice, &[(0, MARK + 20)], Err((19, 24, 2))),
    (WriteNotice, &[(0, MARK + 24)], Err((19, 24, 2))),
    (WriteNotice, &[(0, MARK + 35)], Err((19, 24, 2))),
    (Question, &[(0, MARK + 4)], Err((19, 8, 2))),
    (Question, &[(0, MARK + 8)], Err((19, 12, 2))),
    (Question, &[(0, MARK + 12)], Err((19, 16, 2))),
    (Question, &[(0, MARK + 16)], Err((19, 16, 2))),
    (Question, &[(0, MARK + 23)], Err((19, 16, 2))),
    (PlainReply, &[(0, MARK + 4)], Err((19, 8, 2))),
    (PlainReply, &[(0, MARK + 8)], Err((19, 12, 2))),
    (PlainReply, &[(0, MARK + 12)], Err((19, 12, 2))),
    (CodedReply, &[(0, MARK + 16)], Err((19, 20, 2))),
    (CodedReply, &[(0, MARK + 20)], Err((19, 20, 2))),
];

// Layer 2: a length or a count that is out of bounds, or that passes the end of the record.
const LENGTHS: [Case; 16] = [
    (WriteNotice, &[(12, 0)], Err((21, 12, 2))),
    (WriteNotice, &[(12, 1)], Ok(40)),
    (WriteNotice, &[(12, 17)], Err((21, 12, 2))),
    (WriteNotice, &[(12, 24)], Err((21, 12, 2))),
    (WriteNotice, &[(12, 25)], Err((19, 12, 2))),
    (WriteNotice, &[(12, 0xffff_ffff)], Err((19, 12, 2))),
    (PlainReply, &[(12, 0)], Err((21, 12, 2))),
    (CodedReply, &[(12, 0)], Err((21, 12, 2))),
    (WriteNotice, &[(24, 0)], Err((21, 24, 2))),
    (WriteNotice, &[(24, 1)], Err((21, 24, 2))),
    (WriteNotice, &[(24, 2)], Err((24, 36, 3))),
    (WriteNotice, &[(24, 4)], Err((19, 24, 2))),
    (WriteNotice, &[(24, 7)], Err((19, 24, 2))),
    (Question, &[(16, 0)], Err((21, 16, 2))),
    (Question, &[(16, 2)], Err((19, 16, 2))),
    (CodedReply, &[(20, 0)], Err((21, 20, 2))),
];

// The same with another mark: the longest and one more.
const COUNTS: [Case; 6] = [
    (WriteNotice, &[(0, MARK + 32), (24, 2)], Ok(36)),
    (WriteNotice, &[(0, MARK + 48), (24, 6)], Ok(52)),
    (WriteNotice, &[(0, MARK + 52), (24, 7)], Err((21, 24, 2))),
    (Question, &[(0, MARK + 64), (16, 6)], Ok(68)),
    (Question, &[(0, MARK + 72), (16, 7)], Err((21, 16, 2))),
    (CodedReply, &[(0, MARK + 76), (20, 7)], Err((21, 20, 2))),
];

// Layer 3: kinds, bytes left.
const KINDS: [Case; 8] = [
    (TagNotice, &[(4, 0)], Err((22, 4, 3))),
    (TagNotice, &[(4, 6)], Err((22, 4, 3))),
    (TagNotice, &[(4, 0xffff_ffff)], Err((22, 4, 3))),
    (WriteNotice, &[(0, MARK + 40)], Err((24, 40, 3))),
    (TagNotice, &[(0, MARK + 17)], Err((24, 20, 3))),
    (Question, &[(0, MARK + 25)], Err((24, 28, 3))),
    (PlainReply, &[(0, MARK + 20)], Err((24, 20, 3))),
    (CodedReply, &[(0, MARK + 29)], Err((24, 32, 3))),
];

// Layer 3: numbers at their bounds.
const NUMBERS: [Case; 36] = [
    (WriteNotice, &[(8, 5)], Ok(40)),
    (WriteNotice, &[(8, 6)], Err((23, 8, 3))),
    (TagNotice, &[(8, 5)], Ok(20)),
    (TagNotice, &[(8, 6)], Err((23, 8, 3))),
    (Question, &[(12, 5)], Ok(28)),
    (Question, &[(12, 6)], Err((23, 12, 3))),
    (WriteNotice, &[(20, 0)], Err((23, 20, 3))),
    (WriteNotice, &[(20, 1)], Ok(40)),
    (WriteNotice, &[(20, 6_000_000)], Ok(40)),
    (WriteNotice, &[(20, 6_000_001)], Err((23, 20, 3))),
    (WriteNotice, &[(28, 1_000_000)], Ok(40)),
    (WriteNotice, &[(28, 1_000_001)], Err((23, 24, 3))),
    (WriteNotice, &[(36, 1_000_000)], Ok(40)),
    (WriteNotice, &[(36, 1_000_001)], Err((23, 24, 3))),
    (Question, &[(8, 0)], Err((23, 8, 3))),
    (Question, &[(8, 1)], Ok(28)),
    (Question, &[(8, 1_000_000)], Ok(28)),
    (Question, &[(8, 1_000_001)], Err((23, 8, 3))),
    (PlainReply, &[(8, 0)], Err((23, 8, 3))),
    (PlainReply, &[(8, 1_000_000)], Ok(20)),
    (PlainReply, &[(8, 1_000_001)], Err((23, 8, 3))),
    (CodedReply, &[(8, 0)], Err((23, 8, 3))),
    (CodedReply, &[(8, 1_000_000)], Ok(32)),
    (CodedReply, &[(8, 1_000_001)], Err((23, 8, 3))),
    (TagNotice, &[(12, 0)], Ok(20)),
    (TagNotice, &[(12, 6_000_000)], Ok(20)),
    (TagNotice, &[(12, 6_000_001)], Err((23, 12, 3))),
    (TagNotice, &[(16, 5)], Ok(20)),
    (TagNotice, &[(16, 6)], Err((23, 12, 3))),
    (Question, &[(20, 6_000_000)], Ok(28)),
    (Question, &[(20, 6_000_001)], Err((23, 16, 3))),
    (Question, &[(24, 5)], Ok(28)),
    (Question, &[(24, 6)], Err((23, 16, 3))),
    (CodedReply, &[(24, 0)], Err((23, 20, 3))),
    (CodedReply, &[(24, 6_000_001)], Err((23, 20, 3))),
    (CodedReply, &[(28, 6)], Err((23, 20, 3))),
];

// Height 0 goes with server 0.
const ZEROS: [Case; 4] = [
    (TagNotice, &[(12, 0), (16, 0)], Ok(20)),
    (TagNotice, &[(12, 0), (16, 1)], Err((23, 12, 3))),
    (Question, &[(20, 0), (24, 0)], Ok(28)),
    (Question, &[(20, 0), (24, 5)], Err((23, 16, 3))),
];

fn put_word(bytes: &mut Bytes, at: usize, word: u32) {
    if at <= ROOM - 4 {
        bytes[at..at + 4].copy_from_slice(&word.to_be_bytes());
    }
}

fn told(bytes: &[u8]) -> Result<usize, Fault> {
    match read_message(bytes) {
        Ok(got) => Ok(got.1),
        Err(fault) => {
            let Told { number, at, layer } = fault.into();
            Err((number, at, layer))
        }
    }
}

fn try_all(rt: &impl Abort, cases: &[Case]) -> Result<(), Fail> {
    for (kind, words, expected) in cases {
        let mut bytes = [0; ROOM];
        let _ = write_message(&sample(*kind)?, &mut bytes)?;
        for (at, word) in *words {
            put_word(&mut bytes, *at, *word);
        }
        assert_eq!(rt; told(&bytes), *expected);
    }
    Ok(())
}

#[test]
fn the_mark(rt: HostRuntime) -> Result<(), Fail> {
    try_all(&rt, &MARKS)
}

#[test]
fn the_record_ends_within_a_field(rt: HostRuntime) -> Result<(), Fail> {
    try_all(&rt, &SHORT)
}

#[test]
fn lengths_and_counts(rt: HostRuntime) -> Result<(), Fail> {
    try_all(&rt, &LENGTHS)?;
    try_all(&rt, &COUNTS)
}

#[test]
fn kinds_and_bytes_left(rt: HostRuntime) -> Result<(), Fail> {
    try_all(&rt, &KINDS)
}

#[test]
fn numbers_at_their_bounds(rt: HostRuntime) -> Result<(), Fail> {
    try_all(&rt, &NUMBERS)?;
    try_all(&rt, &ZEROS)
}

// Cut off at any length, bytes that begin with a record do not; nor are bytes behind the record looked at.
#[test]
fn cut_off_at_every_length(rt: HostRuntime) -> Result<(), Fail> {
    for kind in ALL_KINDS {
        let mut bytes = [0xff; ROOM];
        let n = write_message(&sample(kind)?, &mut bytes)?;
        assert_eq!(rt; n, length(kind));
        for cut in 0..ROOM {
            let expected = if cut < n { Err((19, 0, 1)) } else { Ok(n) };
            assert_eq!(rt; told(&bytes[0..cut]), expected);
        }
    }
    Ok(())
}

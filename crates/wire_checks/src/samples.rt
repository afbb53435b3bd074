// A message of each kind, and bytes to try them on.
use message::kinds::*;
use message::tag::Tag;
use std::test::Fail;
use terms::bounded::Bounded;
use terms::refusal::Refusal;
use wire::kind::Kind;

// Room for the longest record, and some bytes behind it.
pub const ROOM: usize = 88;

pub type Bytes = [u8; ROOM];

pub const ALL_KINDS: [Kind; 5] = [
    Kind::WriteNotice,
    Kind::TagNotice,
    Kind::Question,
    Kind::PlainReply,
    Kind::CodedReply,
];

// The items as a bounded list; `fill` stands in the places that are left.
pub fn list<T: Copy, const MAX: usize>(fill: T, items: &[T]) -> Result<Bounded<T, MAX>, Fail> {
    Ok(Bounded::from_slice(fill, items).ok_or("too many items")?)
}

pub fn tag(height: u32, server: u32) -> Tag {
    Tag { height, server }
}

// 40, 20, 28, 20 and 32 bytes long, in the order of the kinds.
pub fn sample(kind: Kind) -> Result<Message, Fail> {
    Ok(match kind {
        Kind::WriteNotice => Message::WriteNotice {
            object: 0,
            value: list(0, &[100])?,
            height: 1,
            clock: list(0, &[1, 0, 0])?,
        },
        Kind::TagNotice => Message::TagNotice {
            object: 0,
            tag: tag(1, 0),
        },
        Kind::Question => Message::Question {
            read: 1,
            object: 0,
            tags: list(Tag::zero(), &[tag(1, 0)])?,
        },
        Kind::PlainReply => Message::PlainReply {
            read: 1,
            value: list(0, &[7, 8, 9])?,
        },
        Kind::CodedReply => Message::CodedReply {
            read: 1,
            symbol: list(0, &[5, 6])?,
            stated: list(Tag::zero(), &[tag(2, 1)])?,
        },
    })
}

pub fn length(kind: Kind) -> usize {
    match kind {
        Kind::WriteNotice => 40,
        Kind::TagNotice | Kind::PlainReply => 20,
        Kind::Question => 28,
        Kind::CodedReply => 32,
    }
}

// A refusal's number.
pub fn refused<T: Drop>(r: Result<T, Refusal>) -> Option<u8> {
    r.err().map(|refusal| refusal.number())
}

// The five kinds of message.
use crate::tag::Tag;
use terms::bounded::{Bounded, Cells};
use terms::limits::{MAX_OBJECTS, MAX_SERVERS};

// For each server a count of its writes.
pub type Clock = Bounded<u32, MAX_SERVERS>;
// For each object a tag.
pub type Tags = Bounded<Tag, MAX_OBJECTS>;

#[derive(Clone, Copy)]
pub enum Message {
    // A write that its server has applied: the tag has this height and the sender as its server.
    WriteNotice {
        object: u32,
        value: Cells,
        height: u32,
        clock: Clock,
    },
    // The sender's own tag of the object.
    TagNotice {
        object: u32,
        tag: Tag,
    },
    // What does the object hold under these tags?
    Question {
        read: u32,
        object: u32,
        tags: Tags,
    },
    // The value itself.
    PlainReply {
        read: u32,
        value: Cells,
    },
    // The sender's symbol, and the tags that it is made of.
    CodedReply {
        read: u32,
        symbol: Cells,
        stated: Tags,
    },
}

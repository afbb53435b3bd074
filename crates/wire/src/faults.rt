// What is wrong with bytes that are read, by layers: the mark, a field, the message.
ghost use Rattle.std.specs.Prelude.{◌≡◌};
ghost use Rattle.wire.specs.Faults.{told_mark, told_field, told_message};
ghost use Rattle.wire.specs.declared.faults.FieldFault.TheVariants.{Mark};
ghost use Rattle.wire.specs.declared.faults.MessageFault.TheVariants.{Field};

use std::error::Error;
use std::fmt;

// A fault as it is told: its number, the byte at which its field starts, and its layer.
#[derive(Clone, Copy, PartialEq, Eq, Debug)]
pub struct Told {
    pub number: u32,
    pub at: usize,
    pub layer: u32,
}

// Layer 1: the record's mark, which starts at byte 0.
#[derive(Clone, Copy, PartialEq, Eq, Debug)]
pub enum MarkFault {
    // fewer bytes than the mark has, or than it counts
    TooShort,
    // the last-fragment bit is not set
    NotLast,
}

// Layer 2: a field, or the mark below it. `at` is the byte at which the field starts.
#[derive(Clone, Copy, PartialEq, Eq, Debug)]
pub enum FieldFault {
    Mark(MarkFault),
    // the record ends within the field
    TooShort { at: usize },
    // a wrong length, count or padding
    Malformed { at: usize },
}

// Layer 3: the message, or a field below it.
#[derive(Clone, Copy, PartialEq, Eq, Debug)]
pub enum MessageFault {
    Field(FieldFault),
    UnknownKind { at: usize },
    OutOfRange { at: usize },
    // the record goes on behind the message
    BytesLeft { at: usize },
}

impl From<MarkFault> for FieldFault {
    ghost from_gives = { λ e r. r ≡ Mark e };

    fn from(e: MarkFault) -> FieldFault {
        FieldFault::Mark(e)
    }
}

impl From<FieldFault> for MessageFault {
    ghost from_gives = { λ e r. r ≡ Field e };

    fn from(e: FieldFault) -> MessageFault {
        MessageFault::Field(e)
    }
}

impl From<MarkFault> for Told {
    ghost from_gives = { λ fault r. r ≡ told_mark fault };

    fn from(fault: MarkFault) -> Told {
        let number = match fault {
            MarkFault::TooShort => 19,
            MarkFault::NotLast => 20,
        };
        Told {
            number,
            at: 0,
            layer: 1,
        }
    }
}

impl From<FieldFault> for Told {
    ghost from_gives = { λ fault r. r ≡ told_field fault };

    fn from(fault: FieldFault) -> Told {
        let (number, at) = match fault {
            FieldFault::Mark(fault) => return fault.into(),
            FieldFault::TooShort { at } => (19, at),
            FieldFault::Malformed { at } => (21, at),
        };
        Told {
            number,
            at,
            layer: 2,
        }
    }
}

impl From<MessageFault> for Told {
    ghost from_gives = { λ fault r. r ≡ told_message fault };

    fn from(fault: MessageFault) -> Told {
        let (number, at) = match fault {
            MessageFault::Field(fault) => return fault.into(),
            MessageFault::UnknownKind { at } => (22, at),
            MessageFault::OutOfRange { at } => (23, at),
            MessageFault::BytesLeft { at } => (24, at),
        };
        Told {
            number,
            at,
            layer: 3,
        }
    }
}

impl fmt::Display for MessageFault {
    fn fmt<W: fmt::Write>(&self, f: &mut fmt::Formatter<W>) -> fmt::Result {
        let Told { number, at, layer } = Told::from(*self);
        write!(f, "fault {number} at byte {at}, layer {layer}")
    }
}

impl Error for MessageFault {}

// The kinds of message, by the number that stands first in a body.
ghost use Rattle.std.specs.Prelude.{◌≡◌};
ghost use Rattle.wire.specs.Kinds.{kind_number, Names};

#[derive(Clone, Copy, PartialEq, Eq, Debug)]
pub enum Kind {
    WriteNotice = 1,
    TagNotice = 2,
    Question = 3,
    PlainReply = 4,
    CodedReply = 5,
}

// A number that is no kind's.
#[derive(Clone, Copy, PartialEq, Eq, Debug)]
pub struct NoSuchKind;

impl From<Kind> for u32 {
    ghost from_gives = { λ kind n. n ≡ kind_number kind };

    fn from(kind: Kind) -> u32 {
        kind as u32
    }
}

impl TryFrom<u32> for Kind {
    type Error = NoSuchKind;

    ghost try_from_gives = { Names };

    fn try_from(n: u32) -> Result<Kind, NoSuchKind> {
        match n {
            1 => Ok(Kind::WriteNotice),
            2 => Ok(Kind::TagNotice),
            3 => Ok(Kind::Question),
            4 => Ok(Kind::PlainReply),
            5 => Ok(Kind::CodedReply),
            _ => Err(NoSuchKind),
        }
    }
}

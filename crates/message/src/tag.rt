// The tag of a write. Tags are ordered by height, then by server; the zero tag comes before every write.
ghost use Rattle.std.specs.Prelude.{◌≡◌};
ghost use Rattle.message.specs.Tags.{lower, same, zero_tag};

#[derive(Clone, Copy, PartialEq, Eq, PartialOrd, Ord, Debug)]
pub struct Tag {
    pub height: u32,
    pub server: u32,
}

impl Tag {
    // The tag of the zero record.
    pub fn zero() -> Tag
        ensures zero { result ≡ zero_tag }
    {
        Tag {
            height: 0,
            server: 0,
        }
    }

    pub fn is_lower_than(self, other: Tag) -> bool
        ensures by_height_then_server { result ≡ lower self other }
    {
        self < other
    }

    pub fn equals(self, other: Tag) -> bool
        ensures same_height_and_server { result ≡ same self other }
    {
        self == other
    }
}

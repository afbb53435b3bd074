// What an event makes of a read.
ghost use Rattle.std.specs.Prelude.{◌≡◌, ◌&&◌, ◌||◌, ◌==◌};
ghost use Rattle.terms.specs.Items.{items};
ghost use Rattle.message.specs.Tags.{zero_tag, lower};
ghost use Rattle.rules.specs.Encoding.{asks};
ghost use Rattle.rules.specs.Updates.{answered, is_free, is_open, has_number, is_open_as};
ghost use Rattle.reads.specs.Readings.{asking, read, event_of, next, passes};
ghost use Rattle.reads.specs.Ways.{way_number};

use super::{Asking, Event, Given, Read, Sought};
use crate::ways::Way;
use message::tag::Tag;
use terms::bounded::Cells;

impl Asking {
    // The read's tag of an object.
    pub fn tag_of(&self, object: usize) -> Tag
        ensures found { result ≡ (asking self.now).tags object }
    {
        self.tags.get(object).copied().unwrap_or(Tag::zero())
    }

    // Whether a write of the object is news to this read.
    fn is_overtaken(&self, all: bool, object: usize, tag: Tag) -> bool
        ensures { result ≡ (self.now.object == object && (all || lower ((asking self.now).tags object) tag)) }
    {
        self.object == object && (all || self.tag_of(object) < tag)
    }

    fn answered(&self, value: Cells, tag: Tag, way: Way) -> Read
        ensures { read result ≡ answered (asking self.now) (items value) tag (way_number way) }
    {
        Read::Answered(Given {
            number: self.number,
            value,
            tag,
            way: way.number(),
        })
    }
}

impl Read {
    pub fn next(self, event: Event) -> Read
        ensures after { read result ≡ next (read self) (event_of event) }
    {
        match (&self, &event) {
            (Read::Open(asking), Event::Replied(value)) => {
                asking.answered(*value, asking.tag_of(asking.object), Way::Replies)
            }
            (
                Read::Open(asking),
                Event::Newer {
                    all,
                    object,
                    tag,
                    value,
                },
            ) => {
                if asking.is_overtaken(*all, *object, *tag) {
                    asking.answered(*value, *tag, Way::NewerWrite)
                } else {
                    self
                }
            }
            (Read::Answered(_), Event::Collected) => Read::Free,
            _ => self,
        }
    }

    // Whether this is what is looked for.
    pub(crate) fn is(&self, sought: Sought) -> bool
        ensures { result ≡ passes sought (read self.now) }
    {
        match sought {
            Sought::Free => self.is_free(),
            Sought::Numbered(number) => self.has_number(number),
            Sought::OpenAs(number) => self.is_open_as(number),
        }
    }

    pub fn is_free(&self) -> bool
        ensures decided { result ≡ is_free (read self.now) }
    {
        matches!(self, Read::Free)
    }

    pub fn is_open(&self) -> bool
        ensures decided { result ≡ is_open (read self.now) }
    {
        matches!(self, Read::Open(_))
    }

    // Whether this is a read with this number that is not collected yet.
    pub fn has_number(&self, number: u32) -> bool
        ensures decided { result ≡ has_number number (read self.now) }
    {
        match self {
            Read::Free => false,
            Read::Open(asking) => asking.number == number,
            Read::Answered(given) => given.number == number,
        }
    }

    // Whether this is an open read with this number.
    pub fn is_open_as(&self, number: u32) -> bool
        ensures decided { result ≡ is_open_as number (read self.now) }
    {
        matches!(self, Read::Open(asking) if asking.number == number)
    }

    // Whether this is an open read with this tag of the object.
    pub fn asks(&self, object: usize, tag: Tag) -> bool
        ensures decided { result ≡ asks object tag (read self.now) }
    {
        matches!(self, Read::Open(asking) if asking.tag_of(object) == tag)
    }
}

// Whether a message is within its ranges.
ghost use Rattle.std.specs.Prelude.{◌≡◌, Bool};
ghost use Rattle.terms.specs.Items.{items};
ghost use Rattle.std.specs.List.{list_all};
ghost use Rattle.message.specs.Meanings.{meaning};
ghost use Rattle.message.specs.Ranges.{between, count_ok, tag_ok, cells_ok, clock_ok, tags_ok, in_range};

use crate::kinds::*;
use crate::tag::Tag;
use terms::bounded::Cells;
use terms::limits::*;

// Whether a number is from `low` to `high`.
pub fn is_between(low: u32, high: u32, n: u32) -> bool
    ensures decided { result ≡ between low high n }
{
    (low..=high).contains(&n)
}

pub fn tag_is_in_range(t: Tag) -> bool
    ensures decided { result ≡ tag_ok t }
{
    t.height <= MAX_HEIGHT && t.server <= LAST_SERVER && (t.height >= 1 || t.server == 0)
}

fn cells_are_in_range(cells: &Cells) -> bool
    ensures decided { result ≡ cells_ok (items cells.now) }
{
    (MIN_CELLS..=MAX_CELLS).contains(&cells.len())
}

fn counts_are_in_range(counts: &[u32]) -> bool
    ensures decided { result ≡ list_all count_ok counts.now }
{
    counts.iter().all(|count| *count <= MAX_COUNT)
}

pub fn clock_is_in_range(clock: &Clock) -> bool
    ensures decided { result ≡ clock_ok (items clock.now) }
{
    (MIN_SERVERS..=MAX_SERVERS).contains(&clock.len()) && counts_are_in_range(clock.as_slice())
}

fn all_in_range(tags: &[Tag]) -> bool
    ensures decided { result ≡ list_all tag_ok tags.now }
{
    tags.iter().all(|tag| tag_is_in_range(*tag))
}

pub fn tags_are_in_range(tags: &Tags) -> bool
    ensures decided { result ≡ tags_ok (items tags.now) }
{
    (MIN_OBJECTS..=MAX_OBJECTS).contains(&tags.len()) && all_in_range(tags.as_slice())
}

impl Message {
    pub fn is_in_range(&self) -> bool
        ensures decided { result ≡ in_range (meaning self.now) }
    {
        match self {
            Message::WriteNotice {
                object,
                value,
                height,
                clock,
            } => {
                is_between(0, LAST_OBJECT, *object)
                    && cells_are_in_range(value)
                    && is_between(1, MAX_HEIGHT, *height)
                    && clock_is_in_range(clock)
            }
            Message::TagNotice { object, tag } => is_between(0, LAST_OBJECT, *object)
                && tag_is_in_range(*tag),
            Message::Question { read, object, tags } => {
                is_between(1, MAX_READ, *read)
                    && is_between(0, LAST_OBJECT, *object)
                    && tags_are_in_range(tags)
            }
            Message::PlainReply { read, value } => is_between(1, MAX_READ, *read)
                && cells_are_in_range(value),
            Message::CodedReply {
                read,
                symbol,
                stated,
            } => {
                is_between(1, MAX_READ, *read)
                    && cells_are_in_range(symbol)
                    && tags_are_in_range(stated)
            }
        }
    }
}

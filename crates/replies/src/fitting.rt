// Whether a message fits a group.
ghost use Rattle.std.specs.Prelude.{◌≡◌, ℕ, ◌&&◌, ltb, length, ◌==◌, nat_lt, slice_index};
ghost use Rattle.terms.specs.Items.{items};
ghost use Rattle.std.specs.List.{list_all};
ghost use Rattle.message.specs.Meanings.{meaning as meaning_of};
ghost use Rattle.code.specs.Meaning.{meaning};
ghost use Rattle.rules.specs.Delivering.{fits_value, fits_tag, fits_tags, fits_group, fits};
ghost use Rattle.server.specs.Steps.{laid};
ghost use Rattle.terms.specs.Lists.{every};

use code::code::Code;
use field::interface::Field;
use message::kinds::{Clock, Message, Tags};
use message::tag::Tag;
use terms::bounded::Cells;

// Whether the cell c is an element; past the last cell stands 0.
fn is_element<F: Field>(value: &[u8], c: usize) -> bool
    ensures { result ≡ nat_lt (slice_index value.now c) F.arithmetic.size }
{
    u16::from(value.get(c).copied().unwrap_or(0)) < F::size()
}

// Whether each of the first cells is an element.
pub fn all_elements<F: Field>(value: &[u8], cells: usize) -> bool
    ensures decided { result ≡ every cells (λ c. ltb (slice_index value.now c) F.arithmetic.size) }
{
    (0..cells).all(|c| is_element::<F>(value, c))
}

// Whether this is a value: as many elements as there are cells.
fn fits_value<F: Field + Copy>(code: &Code<F>, value: &Cells) -> bool
    ensures { (places : ℕ) → result ≡ fits_value (laid (meaning F.arithmetic code.now) places) (items value.now) }
{
    value.len() == code.cells() && all_elements::<F>(value.as_slice(), code.cells())
}

// Whether the tag's server is one of the group's.
fn fits_tag<F: Field + Copy>(code: &Code<F>, tag: Tag) -> bool
    ensures { result ≡ nat_lt tag.server (meaning F.arithmetic code.now).servers }
{
    (tag.server as usize) < code.servers()
}

// Whether each tag's server is one of the group's.
fn fits_each<F: Field + Copy>(code: &Code<F>, tags: &[Tag]) -> bool
    ensures { result ≡ list_all (λ t. nat_lt t.server (meaning F.arithmetic code.now).servers) tags.now }
{
    tags.iter().all(|tag| fits_tag(code, *tag))
}

// Whether there is a tag for each object.
fn fits_tags<F: Field + Copy>(code: &Code<F>, tags: &Tags) -> bool
    ensures { (places : ℕ) → result ≡ fits_tags (laid (meaning F.arithmetic code.now) places) (items tags.now) }
{
    tags.len() == code.objects() && fits_each(code, tags.as_slice())
}

// Whether the number is that of an object.
fn fits_object<F: Field + Copy>(code: &Code<F>, object: u32) -> bool
    ensures { result ≡ nat_lt object (meaning F.arithmetic code.now).objects }
{
    (object as usize) < code.objects()
}

fn fits_write<F: Field + Copy>(code: &Code<F>, object: u32, value: &Cells, clock: &Clock) -> bool
    ensures { (places : ℕ) → result ≡ (nat_lt object code.now.objects && (fits_value (laid (meaning F.arithmetic code.now) places) (items value.now) && length (items clock.now) == code.now.servers)) }
{
    fits_object(code, object) && (fits_value(code, value) && clock.len() == code.servers())
}

fn fits_notice<F: Field + Copy>(code: &Code<F>, object: u32, tag: Tag) -> bool
    ensures { (places : ℕ) → result ≡ (nat_lt object code.now.objects && fits_tag (laid (meaning F.arithmetic code.now) places) tag) }
{
    fits_object(code, object) && fits_tag(code, tag)
}

fn fits_question<F: Field + Copy>(code: &Code<F>, object: u32, tags: &Tags) -> bool
    ensures { (places : ℕ) → result ≡ (nat_lt object code.now.objects && fits_tags (laid (meaning F.arithmetic code.now) places) (items tags.now)) }
{
    fits_object(code, object) && fits_tags(code, tags)
}

fn fits_coded<F: Field + Copy>(code: &Code<F>, symbol: &Cells, stated: &Tags) -> bool
    ensures { (places : ℕ) → result ≡ (fits_value (laid (meaning F.arithmetic code.now) places) (items symbol.now) && fits_tags (laid (meaning F.arithmetic code.now) places) (items stated.now)) }
{
    fits_value(code, symbol) && fits_tags(code, stated)
}

// Whether the message fits the group's own sizes.
fn fits_group<F: Field + Copy>(code: &Code<F>, m: &Message) -> bool
    ensures { (places : ℕ) → result ≡ fits_group (laid (meaning F.arithmetic code.now) places) (meaning_of m.now) }
{
    match m {
        Message::WriteNotice {
            object,
            value,
            height: _,
            clock,
        } => fits_write(code, *object, value, clock),
        Message::TagNotice { object, tag } => fits_notice(code, *object, *tag),
        Message::Question {
            read: _,
            object,
            tags,
        } => fits_question(code, *object, tags),
        Message::PlainReply { read: _, value } => fits_value(code, value),
        Message::CodedReply {
            read: _,
            symbol,
            stated,
        } => fits_coded(code, symbol, stated),
    }
}

// Whether the message is within the ranges of messages and fits the group's own sizes.
pub fn fits<F: Field + Copy>(code: &Code<F>, m: &Message) -> bool
    ensures decided { (places : ℕ) → result ≡ fits (laid (meaning F.arithmetic code.now) places) (meaning_of m.now) }
{
    m.is_in_range() && fits_group(code, m)
}

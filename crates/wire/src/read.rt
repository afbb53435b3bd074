// Messages read from bytes.
ghost use Rattle.std.specs.Prelude.{◌≡◌};
ghost use Rattle.terms.specs.Items.{items};
ghost use Rattle.message.specs.Meanings.{meaning};
ghost use Rattle.message.specs.Ranges.{between, tag_ok, clock_ok, tags_ok};
ghost use Rattle.wire.specs.Exact.{Tells};
ghost use Rattle.wire.specs.Reading.{number, tag, clock, tags, ranged, Reads, itself, write_body, notice_body, question_body, plain_body, coded_body, body, reading, ReadAs};

use crate::cursor::Cursor;
use crate::faults::MessageFault;
use crate::kind::Kind;
use message::kinds::{Clock, Message, Tags};
use message::ranges::{clock_is_in_range, is_between, tag_is_in_range, tags_are_in_range};
use message::tag::Tag;
use terms::limits::{LAST_OBJECT, MAX_HEIGHT, MAX_READ};

// The message that the bytes begin with, and the number of bytes that it takes.
pub fn read_message(bytes: &[u8]) -> Result<(Message, usize), MessageFault>
    ensures answer { ReadAs (reading bytes.now) result }
    ensures undoes_writing { Tells bytes.now result }
{
    read_record(bytes)
}

fn read_record(bytes: &[u8]) -> Result<(Message, usize), MessageFault>
    ensures answer { ReadAs (reading bytes.now) result }
{
    let mut c = Cursor::open(bytes)?;
    let m = message_in(&mut c)?;
    if !c.is_done() {
        return Err(MessageFault::BytesLeft { at: c.at() });
    }
    Ok((m, c.end()))
}

fn message_in(c: &mut Cursor) -> Result<Message, MessageFault>
    ensures reads { Reads meaning body c.old c.new result }
{
    let at = c.at();
    match Kind::try_from(c.number()?) {
        Ok(Kind::WriteNotice) => write_notice_in(c),
        Ok(Kind::TagNotice) => tag_notice_in(c),
        Ok(Kind::Question) => question_in(c),
        Ok(Kind::PlainReply) => plain_reply_in(c),
        Ok(Kind::CodedReply) => coded_reply_in(c),
        Err(_) => Err(MessageFault::UnknownKind { at }),
    }
}

fn write_notice_in(c: &mut Cursor) -> Result<Message, MessageFault>
    ensures reads { Reads meaning write_body c.old c.new result }
{
    let object = number_in(c, 0, LAST_OBJECT)?;
    let value = c.opaque()?;
    let height = number_in(c, 1, MAX_HEIGHT)?;
    let clock = clock_in(c)?;
    Ok(Message::WriteNotice {
        object,
        value,
        height,
        clock,
    })
}

fn tag_notice_in(c: &mut Cursor) -> Result<Message, MessageFault>
    ensures reads { Reads meaning notice_body c.old c.new result }
{
    let object = number_in(c, 0, LAST_OBJECT)?;
    let tag = tag_in(c)?;
    Ok(Message::TagNotice { object, tag })
}

fn question_in(c: &mut Cursor) -> Result<Message, MessageFault>
    ensures reads { Reads meaning question_body c.old c.new result }
{
    let read = number_in(c, 1, MAX_READ)?;
    let object = number_in(c, 0, LAST_OBJECT)?;
    let tags = tags_in(c)?;
    Ok(Message::Question { read, object, tags })
}

fn plain_reply_in(c: &mut Cursor) -> Result<Message, MessageFault>
    ensures reads { Reads meaning plain_body c.old c.new result }
{
    let read = number_in(c, 1, MAX_READ)?;
    let value = c.opaque()?;
    Ok(Message::PlainReply { read, value })
}

fn coded_reply_in(c: &mut Cursor) -> Result<Message, MessageFault>
    ensures reads { Reads meaning coded_body c.old c.new result }
{
    let read = number_in(c, 1, MAX_READ)?;
    let symbol = c.opaque()?;
    let stated = tags_in(c)?;
    Ok(Message::CodedReply {
        read,
        symbol,
        stated,
    })
}

// A number from `low` to `high`.
fn number_in(c: &mut Cursor, low: u32, high: u32) -> Result<u32, MessageFault>
    ensures reads { Reads itself (ranged (between low high) number) c.old c.new result }
{
    c.ranged(|c| c.number(), |n| is_between(low, high, *n))
}

fn tag_in(c: &mut Cursor) -> Result<Tag, MessageFault>
    ensures reads { Reads itself (ranged tag_ok tag) c.old c.new result }
{
    c.ranged(|c| c.tag(), |tag| tag_is_in_range(*tag))
}

fn clock_in(c: &mut Cursor) -> Result<Clock, MessageFault>
    ensures reads { Reads items (ranged clock_ok clock) c.old c.new result }
{
    c.ranged(|c| c.clock(), clock_is_in_range)
}

fn tags_in(c: &mut Cursor) -> Result<Tags, MessageFault>
    ensures reads { Reads items (ranged tags_ok tags) c.old c.new result }
{
    c.ranged(|c| c.tags(), tags_are_in_range)
}

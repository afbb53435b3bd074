// Messages written as bytes.
ghost use Rattle.std.specs.Prelude.{◌≡◌, ◌≤◌, length};
ghost use Rattle.terms.specs.Limits.{max_body_bytes};
ghost use Rattle.terms.specs.Items.{items};
ghost use Rattle.message.specs.Meanings.{meaning, write_notice, tag_notice, question as asking, plain_reply, coded_reply};
ghost use Rattle.wire.specs.Bodies.{body_so_far};
ghost use Rattle.wire.specs.Placed.{Placed, room_refusal, write_refusal};
ghost use Rattle.wire.specs.Writing.{body_bytes, marked, encode};

use crate::body::Body;
use crate::kind::Kind;
use message::kinds::{Clock, Message, Tags};
use message::tag::Tag;
use terms::bounded::Cells;
use terms::limits::MARK_BYTES;
use terms::refusal::Refusal;

// The highest bit of the mark: no other fragment follows.
const LAST_FRAGMENT: u32 = 0x8000_0000;

// Puts the record of the message at the start of the place, and answers its length.
pub fn write_message(m: &Message, place: &mut [u8]) -> Result<usize, Refusal>
    ensures written_or_unchanged { Placed (write_refusal (meaning m.now) (length place.old)) (encode (meaning m.now)) place.old place.new result }
{
    if !m.is_in_range() {
        return Err(Refusal::OutOfRange);
    }
    let body = body_of(m);
    put_record(body.as_slice(), place)
}

fn put_record(body: &[u8], place: &mut [u8]) -> Result<usize, Refusal>
    requires { length body.now ≤ max_body_bytes }
    ensures written_or_unchanged { Placed (room_refusal (marked body.now) (length place.old)) (marked body.now) place.old place.new result }
{
    let n = MARK_BYTES + body.len();
    if place.len() < n {
        return Err(Refusal::PlaceTooShort);
    }
    let mark = LAST_FRAGMENT + body.len() as u32;
    place[..MARK_BYTES].copy_from_slice(&mark.to_be_bytes());
    place[MARK_BYTES..n].copy_from_slice(body);
    Ok(n)
}

fn body_of(m: &Message) -> Body
    ensures written { body_so_far result ≡ body_bytes (meaning m.now) }
{
    match m {
        Message::WriteNotice {
            object,
            value,
            height,
            clock,
        } => write_notice(*object, value, *height, clock),
        Message::TagNotice { object, tag } => tag_notice(*object, *tag),
        Message::Question { read, object, tags } => question(*read, *object, tags),
        Message::PlainReply { read, value } => plain_reply(*read, value),
        Message::CodedReply {
            read,
            symbol,
            stated,
        } => coded_reply(*read, symbol, stated),
    }
}

// The bodies: the kind, and the fields in order.

fn write_notice(object: u32, value: &Cells, height: u32, clock: &Clock) -> Body
    ensures written { body_so_far result ≡ body_bytes (write_notice object (items value.now) height (items clock.now)) }
{
    let mut out = Body::of(Kind::WriteNotice);
    out.put_number(object);
    out.put_opaque(value);
    out.put_number(height);
    out.put_list(clock.as_slice());
    out
}

fn tag_notice(object: u32, tag: Tag) -> Body
    ensures written { body_so_far result ≡ body_bytes (tag_notice object tag) }
{
    let mut out = Body::of(Kind::TagNotice);
    out.put_number(object);
    out.put_tag(tag);
    out
}

fn question(read: u32, object: u32, tags: &Tags) -> Body
    ensures written { body_so_far result ≡ body_bytes (asking read object (items tags.now)) }
{
    let mut out = Body::of(Kind::Question);
    out.put_number(read);
    out.put_number(object);
    out.put_list(tags.as_slice());
    out
}

fn plain_reply(read: u32, value: &Cells) -> Body
    ensures written { body_so_far result ≡ body_bytes (plain_reply read (items value.now)) }
{
    let mut out = Body::of(Kind::PlainReply);
    out.put_number(read);
    out.put_opaque(value);
    out
}

fn coded_reply(read: u32, symbol: &Cells, stated: &Tags) -> Body
    ensures written { body_so_far result ≡ body_bytes (coded_reply read (items symbol.now) (items stated.now)) }
{
    let mut out = Body::of(Kind::CodedReply);
    out.put_number(read);
    out.put_opaque(symbol);
    out.put_list(stated.as_slice());
    out
}

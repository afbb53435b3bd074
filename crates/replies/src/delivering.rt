// A message is delivered to a server.
ghost use Rattle.std.specs.Prelude.{◌≡◌, ℕ, ◌<◌, Bool, true};
ghost use Rattle.terms.specs.Items.{items};
ghost use Rattle.message.specs.Meanings.{write_notice, question, meaning as meaning_of};
ghost use Rattle.message.specs.Ranges.{in_range};
ghost use Rattle.code.specs.Codings.{Coding};
ghost use Rattle.code.specs.Meaning.{meaning};
ghost use Rattle.rules.specs.Delivering.{fits};
ghost use Rattle.rules.specs.State.{Layout, Server as Kept};
ghost use Rattle.rules.specs.Turns.{Found};
ghost use Rattle.server.specs.Servers.{server};
ghost use Rattle.server.specs.Steps.{laid};
ghost use Rattle.replies.specs.Receiving.{got_local};
ghost use Rattle.replies.specs.Taking.{MessageTaken, DeliveredBy};
ghost use Rattle.replies.specs.Told.{reply_said, deliver_said};

use crate::fitting::fits;
use crate::seats::Seat;
use crate::settling::take_plain;
use crate::turns::{DeliverTurn, Delivered};
use code::code::Code;
use field::interface::Field;
use message::kinds::{Clock, Message, Tags};
use message::tag::Tag;
use reads::numbers::{ObjectNumber, ServerNumber};
use std::marker::PhantomData;
use steps::turns::Turn;
use teller::teller::Teller;
use teller::values::Value;
use terms::bounded::Cells;
use terms::refusal::Refusal;
use waiting::waiting::Waiting;

// A write notice joins the waiting writes.
fn note_write(
    p: &mut Teller,
    from: ServerNumber,
    object: u32,
    cells: Cells,
    height: u32,
    clock: Clock,
) -> Result<Delivered, Refusal>
    requires { in_range (write_notice object (items cells) height (items clock)) ≡ true }
    ensures { (l : Layout) (b : ℕ) (back : Bool) (f : Found) → reply_said result (server p.new.server) ≡ got_local l (server p.old.server) from.number b back (write_notice object (items cells) height (items clock)) f }
{
    if !p.server.waiting().has_room() {
        return Err(Refusal::WaitingFull);
    }
    p.queue(Waiting {
        object: object as usize,
        tag: Tag {
            height,
            server: from.number as u32,
        },
        value: cells,
        clock,
    });
    Ok(Delivered::Noted)
}

// What was taken, with no reply.
fn silent(taken: Result<Delivered, Refusal>) -> Result<DeliverTurn, Refusal>
    ensures said { (q : Kept) → deliver_said result q ≡ reply_said taken q }
{
    taken.map(|answer| Turn::quiet(answer))
}

impl<F: Field + Copy> Seat<'_, F> {
    // A question is answered, if the lane back has a place.
    fn answer(
        &self,
        p: &Teller,
        back_free: bool,
        read: u32,
        object: u32,
        asked: &Tags,
    ) -> Result<DeliverTurn, Refusal>
        requires { in_range (question read object (items asked.now)) ≡ true }
        ensures step { (places a : ℕ) (f : Found) → deliver_said result (server p.now.server) ≡ got_local (laid (meaning F.arithmetic self.now.code.now) places) (server p.now.server) a self.now.server.number back_free (question read object (items asked.now)) f }
    {
        if !back_free {
            return Err(Refusal::LaneFull);
        }
        Ok(self.reply(p, read, object, asked))
    }
}

// A message that fits is taken.
fn receive<F: Field + Copy>(
    p: &mut Teller,
    code: &Code<F>,
    me: ServerNumber,
    from: ServerNumber,
    m: Message,
    back_free: bool,
) -> Result<DeliverTurn, Refusal>
    requires me_within { me.number < code.now.servers }
    requires from_within { from.number < code.now.servers }
    requires fit { fits (laid (meaning F.arithmetic code.now) 0) (meaning_of m) ≡ true }
    ensures taken { MessageTaken (meaning F.arithmetic code.now) (server p.old.server) from.number me.number back_free (meaning_of m) (deliver_said result (server p.new.server)) }
{
    match m {
        Message::WriteNotice {
            object,
            value,
            height,
            clock,
        } => silent(note_write(p, from, object, value, height, clock)),
        Message::TagNotice { object, tag } => {
            let x = ObjectNumber {
                number: object as usize,
                of: PhantomData,
            };
            p.hear(x, from, tag);
            silent(Ok(Delivered::Noted))
        }
        Message::Question { read, object, tags } => {
            let seat = Seat { code, server: me };
            seat.answer(p, back_free, read, object, &tags)
        }
        Message::PlainReply { read, value } => silent(take_plain(p, read, Value { cells: value })),
        Message::CodedReply {
            read,
            symbol,
            stated,
        } => {
            let sender = Seat { code, server: from };
            silent(sender.take_coded(p, read, symbol, &stated))
        }
    }
}

// A message from one server is delivered to another, number `me`; `back_free` tells whether the lane back has a place.
pub fn deliver<F: Field + Copy>(
    p: &mut Teller,
    code: &Code<F>,
    me: ServerNumber,
    from: ServerNumber,
    m: Message,
    back_free: bool,
) -> Result<DeliverTurn, Refusal>
    ensures delivered { DeliveredBy (meaning F.arithmetic code.now) (server p.old.server) from.number me.number back_free (meaning_of m) (deliver_said result (server p.new.server)) }
{
    if from.number >= code.servers() || me.number >= code.servers() {
        return Err(Refusal::NoSuchServer);
    }
    if !fits(code, &m) {
        return Ok(Turn::quiet(Delivered::Unfit));
    }
    receive(p, code, me, from, m, back_free)
}

// Encode: the own tag of an object moves to a higher one.
ghost use Rattle.std.specs.Prelude.{◌≡◌, ℕ, Bool, Some};
ghost use Rattle.std.specs.Option.{option_map};
ghost use Rattle.terms.specs.Items.{items};
ghost use Rattle.code.specs.Codings.{Coding};
ghost use Rattle.code.specs.Meaning.{meaning};
ghost use Rattle.rules.specs.State.{internal};
ghost use Rattle.rules.specs.Updates.{is_open};
ghost use Rattle.server.specs.Servers.{server};
ghost use Rattle.server.specs.Steps.{laid};
ghost use Rattle.steps.specs.Encoding.{move_local, ask_by, ask_local, contained_local, other_local, encode_local};
ghost use Rattle.steps.specs.Told.{encode_said};

use crate::asking::open;
use crate::shares::Share;
use crate::turns::{EncodeTurn, Encoded, Turn};
use code::code::Code;
use field::interface::Field;
use history::history::Entry;
use message::kinds::Message;
use reads::numbers::{ObjectNumber, ReadPlace, ServerNumber};
use server::server::Server;
use std::marker::PhantomData;
use teller::teller::Teller;
use teller::values::{Own, Value};
use terms::limits::MAX_CLIENT_READS;
use terms::refusal::Refusal;

// Whether the internal read of the object is open.
fn is_asking(p: &Server, x: ObjectNumber) -> bool
    ensures { result ≡ is_open ((server p.now).reads (internal x.number)) }
{
    p.reads().at(MAX_CLIENT_READS + x.number).is_open()
}

// The own tag's value, recovered from the symbol alone, enters the history.
fn enter_own(p: &mut Teller, x: ObjectNumber, value: Value) -> Result<EncodeTurn, Refusal>
    ensures step { (places s : ℕ) (lanes : Bool) (code : Coding) → encode_said result (server p.new.server) ≡ ask_by (laid code places) (server p.old.server) s x.number lanes (Some (items value.cells)) }
{
    if !p.server.history().has_room() {
        return Err(Refusal::HistoryFull);
    }
    let tag = p.server.own_tag(x.number);
    p.enter(Entry {
        object: x.number,
        tag,
        value: value.cells,
    });
    Ok(Turn::quiet(Encoded::Decoded))
}

impl<F: Field + Copy> Share<'_, F> {
    // The own tag of the object moves, with another symbol, and all others are to be told.
    fn move_own(&self, p: &mut Teller, to: Own, lanes_free: bool) -> Result<EncodeTurn, Refusal>
        ensures step { encode_said result (server p.new.server) ≡ move_local (server p.old.server) self.now.server.number self.now.object.number to.tag (items to.symbol.cells) lanes_free }
    {
        if !lanes_free {
            return Err(Refusal::LaneFull);
        }
        p.move_to(self.server, self.object, to);
        let notice = Message::TagNotice {
            object: self.object.number as u32,
            tag: to.tag,
        };
        Ok(Turn {
            answer: Encoded::Moved,
            news: Some(notice),
        })
    }

    // The value of the own tag is not held, and wanted.
    fn ask(
        &self,
        p: &mut Teller,
        alone: Option<Value>,
        lanes_free: bool,
    ) -> Result<EncodeTurn, Refusal>
        ensures step { (places : ℕ) → encode_said result (server p.new.server) ≡ ask_local (laid (meaning F.arithmetic self.now.code.now) places) (server p.old.server) self.now.server.number self.now.object.number (option_map (λ v. items v.cells) alone) lanes_free }
    {
        let x = self.object;
        if is_asking(&p.server, x) {
            return Ok(Turn::quiet(Encoded::Waiting));
        }
        if let Some(value) = alone {
            return enter_own(p, x, value);
        }
        let place = ReadPlace {
            number: MAX_CLIENT_READS + x.number,
            of: PhantomData,
        };
        let asked = open(p, self.code, self.server, x, Some(place), lanes_free)?;
        Ok(Turn {
            answer: Encoded::Asked,
            news: Some(asked.question),
        })
    }

    // An object that the server contains: it moves to the highest tag that it holds.
    fn encode_contained(
        &self,
        p: &mut Teller,
        alone: Option<Value>,
        lanes_free: bool,
    ) -> Result<EncodeTurn, Refusal>
        ensures step { (places : ℕ) → encode_said result (server p.new.server) ≡ contained_local (laid (meaning F.arithmetic self.now.code.now) places) (server p.old.server) self.now.server.number self.now.object.number (option_map (λ v. items v.cells) alone) lanes_free }
    {
        let x = self.object.number;
        let server = &p.server;
        let own = server.own_tag(x);
        let tag = server.history().highest(x);
        if own >= tag {
            return Ok(Turn::quiet(Encoded::Nothing));
        }
        let Some(at) = server.history().find(x, own) else {
            return self.ask(p, alone, lanes_free);
        };
        let old = server.history().value_at(self.code, at);
        let new = server.history().value_under(self.code, x, tag);
        let symbol = self.exchanged(&server.symbol(), &old, &new);
        self.move_own(p, Own { tag, symbol }, lanes_free)
    }

    // An object that it does not contain: it moves as far as all that contain it have told.
    fn encode_other(&self, p: &mut Teller, lanes_free: bool) -> Result<EncodeTurn, Refusal>
        ensures step { (places : ℕ) → encode_said result (server p.new.server) ≡ other_local (laid (meaning F.arithmetic self.now.code.now) places) (server p.old.server) self.now.server.number self.now.object.number lanes_free }
    {
        let own = p.server.own_tag(self.object.number);
        let tag = self.highest_within(&p.server);
        if own >= tag {
            return Ok(Turn::quiet(Encoded::Nothing));
        }
        let symbol = p.symbol();
        self.move_own(p, Own { tag, symbol }, lanes_free)
    }
}

// An encode of the object at the server itself, number `me`; `alone` is the value that its symbol recovers alone, if it does.
pub fn encode<F: Field + Copy>(
    p: &mut Teller,
    code: &Code<F>,
    me: ServerNumber,
    x: ObjectNumber,
    alone: Option<Value>,
    lanes_free: bool,
) -> Result<EncodeTurn, Refusal>
    ensures step { (places : ℕ) → encode_said result (server p.new.server) ≡ encode_local (laid (meaning F.arithmetic code.now) places) (server p.old.server) me.number x.number (option_map (λ v. items v.cells) alone) lanes_free }
{
    let share = Share::new(code, me, x)?;
    if share.is_contained() {
        share.encode_contained(p, alone, lanes_free)
    } else {
        share.encode_other(p, lanes_free)
    }
}

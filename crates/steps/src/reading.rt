// Read: a value given at once, or a read that is opened. Collect: the answer of a read.
ghost use Rattle.std.specs.Prelude.{◌≡◌, ℕ};
ghost use Rattle.std.specs.Option.{option_map};
ghost use Rattle.terms.specs.Items.{items};
ghost use Rattle.code.specs.Meaning.{meaning};
ghost use Rattle.server.specs.Servers.{server};
ghost use Rattle.server.specs.Steps.{laid};
ghost use Rattle.steps.specs.Reading.{at_once, read_local, collect_local};
ghost use Rattle.steps.specs.Told.{valued, read_said, collect_said};

use crate::asking::open;
use crate::turns::{CollectAnswer, ReadAnswer, ReadTurn, Turn, Valued};
use code::code::Code;
use field::interface::Field;
use reads::numbers::{ObjectNumber, ServerNumber};
use reads::ways::Way;
use server::server::Server;
use teller::teller::Teller;
use teller::values::Value;
use terms::refusal::Refusal;

// The value that a read of the object gives at once: the history goes first, then the value that the own symbol recovers alone, if it does.
fn read_now<F: Field + Copy>(
    p: &Server,
    code: &Code<F>,
    x: ObjectNumber,
    alone: Option<Value>,
) -> Option<Valued>
    ensures { (places : ℕ) → option_map valued result ≡ at_once (laid (meaning F.arithmetic code.now) places) (server p.now) x.number (option_map (λ v. items v.cells) alone) }
{
    let own = p.own_tag(x.number);
    let highest = p.history().highest(x.number);
    if highest >= own {
        let value = p.history().value_under(code, x.number, highest);
        return Some(Valued {
            value,
            tag: highest,
            way: Way::History.number(),
        });
    }
    let value = alone?;
    if own < highest {
        return None;
    }
    Some(Valued {
        value: value.cells,
        tag: own,
        way: Way::OwnSymbol.number(),
    })
}

// A read of the object at the server itself, number `me`.
pub fn read<F: Field + Copy>(
    p: &mut Teller,
    code: &Code<F>,
    me: ServerNumber,
    x: ObjectNumber,
    alone: Option<Value>,
    lanes_free: bool,
) -> Result<ReadTurn, Refusal>
    ensures step { (places : ℕ) → read_said result (server p.new.server) ≡ read_local (laid (meaning F.arithmetic code.now) places) (server p.old.server) me.number x.number (option_map (λ v. items v.cells) alone) lanes_free }
{
    if let Some(valued) = read_now(&p.server, code, x, alone) {
        return Ok(Turn::quiet(ReadAnswer::Given(valued)));
    }
    let place = p.server.free_place();
    let asked = open(p, code, me, x, place, lanes_free)?;
    Ok(Turn {
        answer: ReadAnswer::Opened(asked.number),
        news: Some(asked.question),
    })
}

// The answer of the client's read with this number, whose place is free then.
pub fn collect(p: &mut Teller, number: u32) -> Result<CollectAnswer, Refusal>
    ensures step { collect_said result (server p.new.server) ≡ collect_local (server p.old.server) number }
{
    let i = p.server.client_place(number).ok_or(Refusal::NoSuchRead)?;
    match p.collect(i) {
        Some(given) => Ok(CollectAnswer::Given(given.into())),
        None => Ok(CollectAnswer::StillOpen),
    }
}

// A read is opened, and the question that goes with it.
ghost use Rattle.std.specs.Prelude.{◌≡◌, ℕ, ◌≤◌};
ghost use Rattle.std.specs.Option.{option_map};
ghost use Rattle.terms.specs.Items.{items};
ghost use Rattle.terms.specs.Lists.{listed};
ghost use Rattle.code.specs.Meaning.{meaning};
ghost use Rattle.server.specs.Servers.{server};
ghost use Rattle.server.specs.Steps.{laid};
ghost use Rattle.rules.specs.Turns.{Answer};
ghost use Rattle.steps.specs.Opening.{open_local};
ghost use Rattle.steps.specs.Told.{asked_said};

use crate::turns::Asked;
use code::code::Code;
use field::interface::Field;
use message::kinds::{Message, Tags};
use message::tag::Tag;
use reads::numbers::{ObjectNumber, ReadPlace, ServerNumber};
use server::server::Server;
use teller::teller::Teller;
use terms::limits::MAX_READ;
use terms::refusal::Refusal;

// The own tags of the first n objects.
fn own_tags(p: &Server, n: usize) -> Tags
    requires { n ≤ 6 }
    ensures { items result ≡ listed n (server p.now).own }
{
    Tags::from_fn(Tag::zero(), n, |x| p.own_tag(x))
}

// Opens a read of the object by the server itself, number `me`, at a place if there is one, and makes its question.
pub fn open<F: Field + Copy>(
    p: &mut Teller,
    code: &Code<F>,
    me: ServerNumber,
    x: ObjectNumber,
    place: Option<ReadPlace>,
    lanes_free: bool,
) -> Result<Asked, Refusal>
    ensures step { (places : ℕ) (told : ℕ → Answer) → asked_said told result (server p.new.server) ≡ open_local (laid (meaning F.arithmetic code.now) places) (server p.old.server) me.number x.number (option_map (λ i. i.number) place) lanes_free told }
{
    if p.server.opened() >= MAX_READ {
        return Err(Refusal::NumbersUsedUp);
    }
    let i = place.ok_or(Refusal::ReadsFull)?;
    if !lanes_free {
        return Err(Refusal::LaneFull);
    }
    let tags = own_tags(&p.server, code.objects());
    let number = p.open(me, i, x.number)?;
    let question = Message::Question {
        read: number,
        object: x.number as u32,
        tags,
    };
    Ok(Asked { number, question })
}

// What a server does by itself, within the ranges of messages: a write, the next waiting write, a read opened and collected, a sweep.
ghost use Rattle.std.specs.Prelude.{◌≡◌, ℕ, ◌+◌, ◌-◌, length};
ghost use Rattle.std.specs.Option.{option_map};
ghost use Rattle.terms.specs.Answers.{Answered};
ghost use Rattle.terms.specs.Items.{items};
ghost use Rattle.code.specs.Meaning.{meaning};
ghost use Rattle.rules.specs.Encoding.{swept};
ghost use Rattle.rules.specs.Updates.{opening, sifted};
ghost use Rattle.rules.specs.Writing.{write_tag};
ghost use Rattle.reads.specs.Readings.{given};
ghost use Rattle.server.specs.Servers.{server};
ghost use Rattle.server.specs.Steps.{after, write_refusal, written, apply_answer, apply_after, chosen, open_refusal, collect_answer, collect_after, laid};

use super::Teller;
use crate::values::Value;
use code::code::Code;
use field::interface::Field;
use message::tag::Tag;
use reads::numbers::{ObjectNumber, ReadPlace, ServerNumber};
use reads::reads::Given;
use terms::refusal::Refusal;

impl Teller {
    // A write of the object by the server itself, number `me`, applied at once.
    pub fn write(&mut self, me: ServerNumber, object: usize, value: Value) -> Result<Tag, Refusal>
        ensures answer { Answered (write_refusal (server self.old.server) me.number) (λ t. t ≡ write_tag (server self.old.server) me.number) result }
        ensures after { server self.new.server ≡ after (write_refusal (server self.old.server) me.number) (server self.old.server) (written (server self.old.server) me.number object (items value.cells)) }
    {
        self.server.write(me, object, value.cells)
    }

    // Applies the lowest waiting write that is ready, if there is one.
    pub fn apply(&mut self, n: usize) -> Result<Option<Tag>, Refusal>
        ensures answer { result ≡ apply_answer (server self.old.server) (chosen n (server self.old.server)) }
        ensures after { server self.new.server ≡ apply_after (server self.old.server) (chosen n (server self.old.server)) }
    {
        self.server.apply(n)
    }

    // Opens a read of the object at a place, and tells its number.
    pub fn open(&mut self, me: ServerNumber, i: ReadPlace, object: usize) -> Result<u32, Refusal>
        ensures answer { Answered (open_refusal (server self.old.server)) (λ m. m ≡ (server self.old.server).opened + 1) result }
        ensures after { server self.new.server ≡ after (open_refusal (server self.old.server)) (server self.old.server) (opening (server self.old.server) me.number i.number object) }
    {
        self.server.open(me, i, object)
    }

    // The answer of the read at a place, whose place is free then.
    pub fn collect(&mut self, i: ReadPlace) -> Option<Given>
        ensures answer { option_map given result ≡ collect_answer ((server self.old.server).reads i.number) }
        ensures after { server self.new.server ≡ collect_after (server self.old.server) i.number ((server self.old.server).reads i.number) }
    {
        self.server.collect(i)
    }

    // Forgets what no server needs of the object any more, and tells how many entries those were.
    pub fn sweep<F: Field + Copy>(&mut self, code: &Code<F>, object: ObjectNumber) -> usize
        ensures removed { (places : ℕ) → result ≡ length (server self.old.server).history - length (swept (laid (meaning F.arithmetic code.now) places) (server self.old.server) object.number) }
        ensures after { (places : ℕ) → server self.new.server ≡ sifted (server self.old.server) (swept (laid (meaning F.arithmetic code.now) places) (server self.old.server) object.number) }
    {
        self.server.sweep(code, object)
    }
}

// What the code says of a server and an object.
ghost use Rattle.std.specs.Prelude.{◌≡◌};
ghost use Rattle.terms.specs.Answers.{Answered};
ghost use Rattle.terms.specs.Items.{items};
ghost use Rattle.code.specs.Codings.{contains, re_encoded};
ghost use Rattle.code.specs.Meaning.{meaning};
ghost use Rattle.code.specs.Refusing.{place_refusal};

use super::Share;
use code::code::Code;
use field::interface::Field;
use reads::numbers::{ObjectNumber, ServerNumber};
use teller::values::Value;
use terms::bounded::Cells;
use terms::refusal::Refusal;

impl<'a, F: Field + Copy> Share<'a, F> {
    // The share of the object at the server, if the code has both.
    pub fn new(
        code: &'a Code<F>,
        server: ServerNumber,
        object: ObjectNumber,
    ) -> Result<Share<'a, F>, Refusal>
        ensures found_or_refused { Answered (place_refusal (meaning F.arithmetic code.now) server.number object.number) (λ share. (share.code.now ≡ code.now) × (share.server.number ≡ server.number) × (share.object.number ≡ object.number)) result }
    {
        if server.number >= code.servers() {
            return Err(Refusal::NoSuchServer);
        }
        if object.number >= code.objects() {
            return Err(Refusal::NoSuchObject);
        }
        Ok(Share {
            code,
            server,
            object,
        })
    }

    // Whether the server contains the object.
    pub fn is_contained(&self) -> bool
        ensures decided { result ≡ contains (meaning F.arithmetic self.now.code.now) self.now.server.number self.now.object.number }
    {
        self.is_contained_by(self.server.number)
    }

    // Whether the server j contains the object; none past the code's servers does.
    pub fn is_contained_by(&self, j: usize) -> bool
        ensures decided { result ≡ contains (meaning F.arithmetic self.now.code.now) j self.now.object.number }
    {
        self.code.contains(j, self.object.number).unwrap_or(false)
    }

    // The symbol, where the value of the object turns from old to new.
    pub fn exchanged(&self, symbol: &Cells, old: &Cells, new: &Cells) -> Value
        ensures symbol { items result.cells ≡ re_encoded (meaning F.arithmetic self.now.code.now) self.now.server.number self.now.object.number (items symbol.now) (items old.now) (items new.now) }
    {
        let exchanged = self
            .code
            .exchange(self.server.number, self.object.number, symbol, old, new)
            .unwrap_or(*symbol);
        Value { cells: exchanged }
    }
}

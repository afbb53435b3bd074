// What a server keeps of the objects' values.
ghost use Rattle.std.specs.Prelude.{◌≡◌, ℕ, ◌<◌, List, [], ◌∷◌, map, IfOk, slice_index};
ghost use Rattle.terms.specs.Answers.{Answered};
ghost use Rattle.terms.specs.Items.{items};
ghost use Rattle.terms.specs.Lists.{listed};
ghost use Rattle.code.specs.Codings.{Values, combination, symbol, re_encoded, Turned, value_at};
ghost use Rattle.code.specs.Meaning.{meaning};
ghost use Rattle.code.specs.Refusing.{symbol_refusal, re_encode_refusal};

use super::Code;
use crate::code::sums::sum;
use field::interface::Field;
use terms::bounded::Cells;
use terms::refusal::Refusal;

impl<F: Field + Copy> Code<F> {
    // The symbol of a server, from the values of all objects.
    pub fn symbol(&self, server: usize, values: &[Cells]) -> Result<Cells, Refusal>
        ensures combined_or_refused { Answered (symbol_refusal (meaning F.arithmetic self.now) server (map items values.now)) (λ v. items v ≡ symbol (meaning F.arithmetic self.now) server (value_at (map items values.now))) result }
    {
        self.check_server(server)?;
        self.check_values(self.objects, values)?;
        Ok(self.combine(server, values))
    }

    // The combination of the values by the server's row, cell by cell.
    fn combine(&self, server: usize, values: &[Cells]) -> Cells
        requires { server < self.now.servers }
        ensures { items result ≡ symbol (meaning F.arithmetic self.now) server (value_at (map items values.now)) }
    {
        Cells::from_fn(0, self.cells, |c| self.combine_cell(server, values, c))
    }

    // One cell of the combination.
    fn combine_cell(&self, server: usize, values: &[Cells], c: usize) -> u8
        requires { server < self.now.servers }
        ensures { result ≡ combination (meaning F.arithmetic self.now) server (λ x. slice_index (value_at (map items values.now) x) c) }
    {
        sum::<F, _>(self.objects, |x| {
            F::mul(self.at(server, x), cell_of(values, x, c))
        })
    }

    // A server's symbol where the value of an object turns from old to new.
    pub fn re_encode(
        &self,
        server: usize,
        object: usize,
        symbol: &Cells,
        old: &Cells,
        new: &Cells,
    ) -> Result<Cells, Refusal>
        ensures re_encoded_or_refused { Answered (re_encode_refusal (meaning F.arithmetic self.now) server object (items symbol.now ∷ items old.now ∷ items new.now ∷ [])) (λ v. items v ≡ re_encoded (meaning F.arithmetic self.now) server object (items symbol.now) (items old.now) (items new.now)) result }
        ensures turns_the_symbol { IfOk result (λ t. Turned (meaning F.arithmetic self.now) server object (items symbol.now) (items old.now) (items new.now) (items t)) }
    {
        self.check_place(server, object)?;
        self.check_values(3, &[*symbol, *old, *new])?;
        Ok(self.turned(server, object, symbol, old, new))
    }

    // The symbol after the turn, once the server and the object are known to be within.
    pub(crate) fn turned(
        &self,
        server: usize,
        object: usize,
        symbol: &Cells,
        old: &Cells,
        new: &Cells,
    ) -> Cells
        requires server_within { server < self.now.servers }
        requires object_within { object < self.now.objects }
        ensures { items result ≡ re_encoded (meaning F.arithmetic self.now) server object (items symbol.now) (items old.now) (items new.now) }
    {
        let coefficient = self.at(server, object);
        Cells::from_fn(0, self.cells, |c| {
            let cell = symbol.get_or(c, 0);
            turned_cell::<F>(coefficient, cell, old.get_or(c, 0), new.get_or(c, 0))
        })
    }
}

// A cell of a symbol and the coefficient times (after minus before).
fn turned_cell<F: Field>(coefficient: u8, cell: u8, before: u8, after: u8) -> u8
    ensures { result ≡ F.arithmetic.plus cell (F.arithmetic.times coefficient (F.arithmetic.plus after (F.arithmetic.minus before))) }
{
    F::add(cell, F::mul(coefficient, F::add(after, F::neg(before))))
}

// The cell c of the value x, or 0.
pub(crate) fn cell_of(values: &[Cells], x: usize, c: usize) -> u8
    ensures { result ≡ slice_index (value_at (map items values.now) x) c }
{
    values.get(x).map_or(0, |v| v.get_or(c, 0))
}

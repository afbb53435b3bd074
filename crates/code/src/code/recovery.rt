// Which sets of servers recover which objects, and the objects' values from the sets' symbols.
ghost use Rattle.std.specs.Prelude.{◌≡◌, ℕ, ◌<◌, true, map, Decides, MatchOption, slice_index};
ghost use Rattle.terms.specs.Answers.{Answered};
ghost use Rattle.terms.specs.Items.{items};
ghost use Rattle.field.specs.Sums.{dot};
ghost use Rattle.matrix.specs.Matrices.{row_count, entry};
ghost use Rattle.code.specs.Chosen.{ChosenRow, ChosenRows, shown, weighed};
ghost use Rattle.code.specs.Codings.{value_at};
ghost use Rattle.code.specs.Meaning.{meaning};
ghost use Rattle.code.specs.Recovery.{Recovers, Decoded};
ghost use Rattle.code.specs.Refusing.{known_set, recovers_refusal, decode_refusal};
ghost use Rattle.terms.specs.Sets.{member};

use super::Code;
use crate::code::sums::sum;
use crate::code::symbols::cell_of;
use field::interface::Field;
use matrix::solving::{COLUMNS, Matrix, ROWS, solve};
use std::array;
use terms::bounded::Cells;
use terms::refusal::Refusal;
use terms::servers::ServerSet;

impl<F: Field + Copy> Code<F> {
    // Whether the servers of the set recover the object.
    pub fn recovers(&self, set: &ServerSet, object: usize) -> Result<bool, Refusal>
        ensures decided_or_refused { Answered (recovers_refusal (meaning F.arithmetic self.now) (member set.now) object) (λ b. Decides b (Recovers (meaning F.arithmetic self.now) (member set.now) object)) result }
    {
        self.check_set(set, object)?;
        Ok(self.decides(set, object))
    }

    // Whether the set recovers the object, once the object is known to be within.
    pub(crate) fn decides(&self, set: &ServerSet, object: usize) -> bool
        requires { object < self.now.objects }
        ensures { Decides result (Recovers (meaning F.arithmetic self.now) (member set.now) object) }
    {
        solve::<F>(self.rows_of(set), object).is_some()
    }

    // The value of the object, from a symbol for each server, if the servers of the set recover it. Only the symbols of the set count.
    pub fn decode(
        &self,
        set: &ServerSet,
        symbols: &[Cells],
        object: usize,
    ) -> Result<Option<Cells>, Refusal>
        ensures decoded_or_refused { Answered (decode_refusal (meaning F.arithmetic self.now) (member set.now) (map items symbols.now) object) (λ o. MatchOption o (Recovers (meaning F.arithmetic self.now) (member set.now) object → ⊥) (λ v. Decoded (meaning F.arithmetic self.now) (member set.now) (value_at (map items symbols.now)) object (items v))) result }
    {
        self.check_set(set, object)?;
        self.check_values(self.servers, symbols)?;
        Ok(self.decoded(set, symbols, object))
    }

    // The value of the object, once the set and the object are known to be within.
    pub(crate) fn decoded(&self, set: &ServerSet, symbols: &[Cells], object: usize) -> Option<Cells>
        requires known { known_set self.now.servers (member set.now) ≡ true }
        requires object_within { object < self.now.objects }
        ensures { MatchOption result (Recovers (meaning F.arithmetic self.now) (member set.now) object → ⊥) (λ v. Recovers (meaning F.arithmetic self.now) (member set.now) object × Decoded (meaning F.arithmetic self.now) (member set.now) (value_at (map items symbols.now)) object (items v)) }
    {
        let factors = solve::<F>(self.rows_of(set), object)?;
        Some(self.weigh(factors, set, symbols))
    }

    // The rows of the set's servers; the other rows, and the columns past the objects, are 0.
    fn rows_of(&self, set: &ServerSet) -> Matrix
        ensures { ChosenRows (meaning F.arithmetic self.now) (member set.now) result }
    {
        let mut rows = [[0; COLUMNS]; ROWS];
        for s in 0..self.servers {
            if set.has(s) {
                rows[s] = self.row_of(s);
            }
        }
        rows
    }

    // A server's row of coefficients, 0 past the objects.
    fn row_of(&self, server: usize) -> [u8; COLUMNS]
        requires { server < self.now.servers }
        ensures { ChosenRow (meaning F.arithmetic self.now) server (λ x. slice_index result x) }
    {
        array::from_fn(|x| {
            if x < self.objects {
                self.at(server, x)
            } else {
                0
            }
        })
    }

    // The sum of the set's symbols, each times its server's factor, cell by cell.
    fn weigh(&self, factors: [u8; ROWS], set: &ServerSet, symbols: &[Cells]) -> Cells
        ensures { items result ≡ weighed (meaning F.arithmetic self.now) (λ s. slice_index factors s) (member set.now) (value_at (map items symbols.now)) }
    {
        Cells::from_fn(0, self.cells, |c| {
            weigh_cell::<F>(factors, set, symbols, c)
        })
    }
}

fn weigh_cell<F: Field>(factors: [u8; ROWS], set: &ServerSet, symbols: &[Cells], c: usize) -> u8
    ensures { result ≡ dot F.arithmetic row_count (λ s. slice_index factors s) (shown (member set.now) (value_at (map items symbols.now)) c) }
{
    sum::<F, _>(ROWS, |s| {
        F::mul(factors[s], shown_cell(set, symbols, s, c))
    })
}

// The cell c of the symbol of the server s, 0 outside the set.
fn shown_cell(set: &ServerSet, symbols: &[Cells], s: usize, c: usize) -> u8
    ensures { result ≡ shown (member set.now) (value_at (map items symbols.now)) c s }
{
    if set.has(s) {
        cell_of(symbols, s, c)
    } else {
        0
    }
}

// What the rows of a matrix say of one of the unknowns.
ghost use Rattle.std.specs.Prelude.{◌≡◌, ℕ, ◌+◌, ◌<◌, MatchOption, slice_index};
ghost use Rattle.matrix.specs.Matrices.{row_count, column_count, Determines, Solves};

use crate::elimination::{WideRow, find_pivot, reduce, widen};
use field::interface::Field;
use std::array;

// A matrix has six rows.
pub const ROWS: usize = 6;

// A row has a coefficient for each of six unknowns.
pub const COLUMNS: usize = 6;

// A number that is no element counts as 0.
pub type Matrix = [[u8; COLUMNS]; ROWS];

// The factors by which the rows add up to the unknown k, if they determine it.
pub fn solve<F: Field>(rows: Matrix, k: usize) -> Option<[u8; ROWS]>
    ensures exact { MatchOption result (Determines F.arithmetic rows k → ⊥) (λ factors. Solves F.arithmetic rows k factors) }
{
    if k < COLUMNS {
        eliminated::<F>(rows, k)
    } else {
        None
    }
}

fn eliminated<F: Field>(rows: Matrix, k: usize) -> Option<[u8; ROWS]>
    requires { k < column_count }
    ensures { MatchOption result (Determines F.arithmetic rows k → ⊥) (λ factors. Solves F.arithmetic rows k factors) }
{
    let reduced = reduce::<F>(widen::<F>(rows), k);
    let p = find_pivot(&reduced.rows, &reduced.leads, k)?;
    let row = reduced.rows[p];
    Some(scaled::<F>(row, F::inv(row[k])))
}

// The factors of a wide row, each times the scale.
fn scaled<F: Field>(row: WideRow, scale: u8) -> [u8; ROWS]
    ensures { (s : ℕ) → s < row_count → slice_index result s ≡ F.arithmetic.times scale (slice_index row (column_count + s)) }
{
    array::from_fn(|s| F::mul(scale, row[COLUMNS + s]))
}

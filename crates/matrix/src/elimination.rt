// The elimination, on wide rows: the coefficients, and the factors by which a row comes from the rows at the start.
ghost use Rattle.std.specs.Prelude.{◌≡◌, ℕ, ◌<◌, slice_index};
ghost use Rattle.matrix.specs.Matrices.{row_count, column_count, entry};
ghost use Rattle.matrix.specs.Elimination.{WidenedRow, Widened, Added, Cleared, is_pivot, pivot, Elements, ReducedTo};

use crate::solving::{COLUMNS, Matrix, ROWS};
use field::interface::Field;
use std::array;

const WIDTH: usize = COLUMNS + ROWS;

pub type WideRow = [u8; WIDTH];

pub type Wide = [WideRow; ROWS];

// The coefficients of a row, 0 for a number that is no element, and 1 at the row's own place among the factors.
fn widen_row<F: Field>(row: [u8; COLUMNS], i: usize) -> WideRow
    requires { i < row_count }
    ensures { WidenedRow F.arithmetic (λ j. slice_index row j) i (λ j. slice_index result j) }
{
    array::from_fn(|j| {
        if j < COLUMNS {
            F::mul(row[j], 1)
        } else {
            u8::from(j == COLUMNS + i)
        }
    })
}

pub fn widen<F: Field>(rows: Matrix) -> Wide
    ensures { Widened F.arithmetic rows result }
{
    array::from_fn(
        |i| -> WideRow
            requires { i < row_count }
            ensures { WidenedRow F.arithmetic (entry rows i) i (λ j. slice_index result j) }
        { widen_row::<F>(rows[i], i) },
    )
}

// f times the row b, added to the row a.
fn add_multiple<F: Field>(a: WideRow, f: u8, b: WideRow) -> WideRow
    ensures { Added F.arithmetic f (λ j. slice_index a j) (λ j. slice_index b j) (λ j. slice_index result j) }
{
    array::from_fn(|j| F::add(a[j], F::mul(f, b[j])))
}

// Adds a multiple of the row p to each other row, so that these are 0 at c.
fn clear<F: Field>(rows: Wide, p: usize, c: usize) -> Wide
    requires { (p < row_count) × (c < column_count) }
    ensures { Cleared F.arithmetic (λ i. F.arithmetic.minus (F.arithmetic.times (entry rows i c) (F.inverse (entry rows p c)))) rows result p }
{
    let by = rows[p];
    let scale = F::inv(by[c]);
    let mut cleared = rows;
    for (i, row) in cleared.iter_mut().enumerate() {
        if i != p {
            let factor = F::neg(F::mul(row[c], scale));
            *row = add_multiple::<F>(*row, factor, by);
        }
    }
    cleared
}

// The first row that leads no column and is not 0 at c.
pub fn find_pivot(rows: &Wide, leads: &[Option<usize>; ROWS], c: usize) -> Option<usize>
    requires { c < column_count }
    ensures { result ≡ pivot rows.now leads.now c }
{
    (0..ROWS).find(|i| is_pivot(rows, leads, c, *i))
}

fn is_pivot(rows: &Wide, leads: &[Option<usize>; ROWS], c: usize, i: usize) -> bool
    requires { (c < column_count) × (i < row_count) }
    ensures { result ≡ is_pivot rows.now leads.now c i }
{
    leads[i].is_none() && rows[i][c] != 0
}

#[derive(Clone, Copy)]
pub struct Reduced {
    pub rows: Wide,
    // The column that each row leads, if it leads one.
    pub leads: [Option<usize>; ROWS],
}

// Leads every column but k by a row of its own, where one can, and clears it from all other rows.
pub fn reduce<F: Field>(start: Wide, k: usize) -> Reduced
    requires { Elements F.arithmetic.size start }
    ensures { ReducedTo F.arithmetic k start result.rows result.leads }
{
    let mut rows = start;
    let mut leads = [None; ROWS];
    for c in 0..COLUMNS {
        if c != k {
            if let Some(p) = find_pivot(&rows, &leads, c) {
                rows = clear::<F>(rows, p, c);
                leads[p] = Some(c);
            }
        }
    }
    Reduced { rows, leads }
}

// A code that was accepted at layout: a row of coefficients for each server.
ghost use Rattle.std.specs.Prelude.{◌≡◌, ◌*◌, ◌≤◌, ⊤, length};
ghost use Rattle.terms.specs.Items.{items};
ghost use Rattle.terms.specs.Limits.{min_servers, max_servers, max_objects, max_cells};

use std::alloc::AllocError;
use terms::bounded::Bounded;
use terms::limits::MAX_TABLE;

pub mod any_cells;
pub mod bounds;
pub mod coefficients;
pub mod layout;
pub mod recovery;
pub mod sizes;
mod sums;
pub mod symbols;
pub mod values;

pub struct Code<F: Copy> {
    // The field, so that a code cannot be used over another.
    field: F,
    servers: usize,
    objects: usize,
    cells: usize,
    // The servers' rows, one after the other.
    table: Bounded<u8, MAX_TABLE>,
    ghost least_servers: { min_servers ≤ servers },
    ghost most_servers: { servers ≤ max_servers },
    ghost least_objects: { 1 ≤ objects },
    ghost most_objects: { objects ≤ max_objects },
    ghost least_cells: { 1 ≤ cells },
    ghost most_cells: { cells ≤ max_cells },
    ghost whole: { length (items table) ≡ servers * objects },
}

impl<F: Copy> Copy for Code<F> {}

impl<F: Copy> Clone for Code<F> {
    ghost is_clone = { λ code copied. copied ≡ code };

    ghost is_infallible = { λ _. ⊤ };

    fn clone(&self) -> Result<Self, AllocError> {
        Ok(*self)
    }
}

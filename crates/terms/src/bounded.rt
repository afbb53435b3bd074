// A list of at most MAX items, kept inline. Values, symbols, clocks and lists of tags are such lists.
ghost use Rattle.std.specs.Prelude.{◌≡◌, ◌≤◌, ⊤, length};

use crate::limits::MAX_CELLS;
use std::alloc::AllocError;

pub mod methods;

pub struct Bounded<T: Copy, const MAX: usize> {
    len: usize,
    places: [T; MAX],
    ghost whole: { length places ≡ MAX },
    ghost fits: { len ≤ MAX },
}

impl<T: Copy, const MAX: usize> Copy for Bounded<T, MAX> {}

impl<T: Copy, const MAX: usize> Clone for Bounded<T, MAX> {
    ghost is_clone = { λ all copied. copied ≡ all };

    ghost is_infallible = { λ _. ⊤ };

    fn clone(&self) -> Result<Self, AllocError> {
        Ok(*self)
    }
}

// The cells of a value or of a symbol.
pub type Cells = Bounded<u8, MAX_CELLS>;

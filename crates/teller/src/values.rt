// Values, symbols and open reads of which messages can be made.
ghost use Rattle.std.specs.Prelude.{◌≡◌, ℕ, ◌≤◌, true, length, slice_index_or};
ghost use Rattle.terms.specs.Items.{items};
ghost use Rattle.message.specs.Ranges.{tag_ok};
ghost use Rattle.message.specs.Tags.{zero_tag};

use message::tag::Tag;
use reads::reads::Asking;
use terms::bounded::Cells;

// A value, or a symbol: it has at least one cell.
#[derive(Clone, Copy)]
pub struct Value {
    pub cells: Cells,
    ghost some_cells: { 1 ≤ length (items cells) },
}

// A symbol with the own tag that it has of an object.
#[derive(Clone, Copy)]
pub struct Own {
    pub tag: Tag,
    pub symbol: Value,
    ghost tag_in_range: { tag_ok tag ≡ true },
}

// An open read whose tags are within range.
#[derive(Clone, Copy)]
pub struct OpenRead {
    pub asking: Asking,
    ghost tags_in_range: { (x : ℕ) → tag_ok (slice_index_or asking.tags x zero_tag) ≡ true },
}

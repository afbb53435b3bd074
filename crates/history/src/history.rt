// The values of some writes that a server holds, by object and tag.
ghost use Rattle.std.specs.Prelude.{◌≤◌, vec_capacity};
ghost use Rattle.terms.specs.Limits.{max_entries};

use message::tag::Tag;
use terms::bounded::Cells;

pub mod edits;
pub mod lookup;
pub mod sifting;

#[derive(Clone, Copy)]
pub struct Entry {
    pub object: usize,
    pub tag: Tag,
    pub value: Cells,
}

// The room for all entries is reserved when the history is made.
#[derive(Drop)]
pub struct History {
    entries: Vec<Entry>,
    ghost room: { max_entries ≤ vec_capacity entries },
}

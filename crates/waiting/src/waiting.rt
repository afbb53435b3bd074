// The writes of other servers that wait to be applied.
ghost use Rattle.std.specs.Prelude.{ℕ, ◌<◌, ◌≤◌, vec_capacity, slice_index};
ghost use Rattle.terms.specs.Items.{items};
ghost use Rattle.terms.specs.Limits.{max_waiting, max_servers, max_count};

use message::kinds::Clock;
use message::tag::Tag;
use terms::bounded::Cells;

pub mod edits;
pub mod ready;

// A write as its server told of it: the clock is that server's when it made the write.
#[derive(Clone, Copy)]
pub struct Waiting {
    pub object: usize,
    pub tag: Tag,
    pub value: Cells,
    pub clock: Clock,
    ghost counts_in_range: { (j : ℕ) → slice_index (items clock) j ≤ max_count },
    ghost known: { tag.server < max_servers },
}

// The room for all waiting writes is reserved when the queue is made.
#[derive(Drop)]
pub struct Queue {
    writes: Vec<Waiting>,
    ghost room: { max_waiting ≤ vec_capacity writes },
}

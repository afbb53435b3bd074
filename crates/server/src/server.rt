// What a server keeps.
ghost use Rattle.std.specs.Prelude.{◌≡◌, ℕ, ◌≤◌, length, slice_index};
ghost use Rattle.terms.specs.Limits.{max_servers, max_objects, max_count};

use history::history::History;
use message::tag::Tag;
use reads::reads::Reads;
use terms::bounded::Cells;
use terms::limits::{MAX_OBJECTS, MAX_SERVERS};
use waiting::waiting::Queue;

pub mod changes;
pub mod lookups;
pub mod reading;
pub mod sweeping;
pub mod writing;

// The tag of one object that each server told last.
#[derive(Clone, Copy)]
pub struct Told {
    tags: [Tag; MAX_SERVERS],
    ghost tag_each: { length tags ≡ max_servers },
}

#[derive(Drop)]
pub struct Server {
    // The writes applied, of each server, and the greatest height applied.
    clock: [u32; MAX_SERVERS],
    top: u32,
    symbol: Cells,
    // The own tag of each object, and the tags told by the others; the server tells itself its own tag.
    own: [Tag; MAX_OBJECTS],
    told: [Told; MAX_OBJECTS],
    history: History,
    waiting: Queue,
    reads: Reads,
    // How many reads were opened, of both sorts together: the number of the last.
    opened: u32,
    // A message that carries this clock is within its ranges.
    ghost counts_in_range: { (j : ℕ) → slice_index clock j ≤ max_count },
    ghost count_each: { length clock ≡ max_servers },
    ghost own_each: { length own ≡ max_objects },
    ghost told_each: { length told ≡ max_objects },
}

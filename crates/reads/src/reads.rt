// The reads of a server: its places, each free, open or answered.
ghost use Rattle.std.specs.Prelude.{◌≡◌, length, vec_len};
ghost use Rattle.terms.specs.Limits.{max_servers, max_objects};
ghost use Rattle.rules.specs.State.{all_reads};

use message::tag::Tag;
use terms::bounded::Cells;
use terms::limits::{MAX_OBJECTS, MAX_SERVERS};
use terms::servers::ServerSet;

pub mod events;
pub mod places;

// An open read: its number, its object, the server's own tags when it was opened, and the symbols in hand.
#[derive(Clone, Copy)]
pub struct Asking {
    pub number: u32,
    pub object: usize,
    pub tags: [Tag; MAX_OBJECTS],
    pub hand: ServerSet,
    // The server's own symbol when the read was opened; it stands where no symbol has come.
    pub own: Cells,
    pub symbols: [Cells; MAX_SERVERS],
    ghost tag_each: { length tags ≡ max_objects },
    ghost symbol_each: { length symbols ≡ max_servers },
}

// An answered read that is not collected yet.
#[derive(Clone, Copy)]
pub struct Given {
    pub number: u32,
    pub value: Cells,
    pub tag: Tag,
    // the number of a way, as `Way::number` tells it
    pub way: u8,
}

#[derive(Clone, Copy)]
pub enum Read {
    Free,
    Open(Asking),
    Answered(Given),
}

// What may happen to a read.
#[derive(Clone, Copy)]
pub enum Event {
    // The value came, by a plain reply or decoded from the symbols in hand.
    Replied(Cells),
    // A write of the object came: it answers a read with a lower tag, or any read if `all`.
    Newer {
        all: bool,
        object: usize,
        tag: Tag,
        value: Cells,
    },
    // The client takes the answer.
    Collected,
}

// What is looked for among the reads.
#[derive(Clone, Copy)]
pub enum Sought {
    Free,
    // A read that is not collected yet, by its number.
    Numbered(u32),
    // An open read, by its number.
    OpenAs(u32),
}

// The clients' places, and behind them one for the internal read of each object.
#[derive(Drop)]
pub struct Reads {
    places: Vec<Read>,
    ghost whole: { vec_len places ≡ all_reads },
}

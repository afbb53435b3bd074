// The single changes that the calls are made of.
ghost use Rattle.std.specs.Prelude.{◌≡◌, ℕ, ◌≤◌, [], ◌∷◌, ◌++◌, length, IfOk, if◌then◌else◌, nat_lt, slice_set};
ghost use Rattle.terms.specs.Items.{items};
ghost use Rattle.terms.specs.Limits.{max_entries, max_waiting, max_count};
ghost use Rattle.code.specs.Meaning.{meaning};
ghost use Rattle.rules.specs.State.{new_server};
ghost use Rattle.rules.specs.Words.{upd};
ghost use Rattle.rules.specs.Updates.{entered, counted, queued, reading, hearing, moved, overtaken};
ghost use Rattle.history.specs.Entries.{entry};
ghost use Rattle.reads.specs.Readings.{read};
ghost use Rattle.server.specs.Servers.{server};
ghost use Rattle.waiting.specs.Writes.{write};

use super::{Server, Told};
use code::code::Code;
use field::interface::Field;
use history::history::lookup::zero_cells;
use history::history::{Entry, History};
use message::tag::Tag;
use reads::numbers::{ObjectNumber, ReadPlace, ServerNumber};
use reads::reads::{Read, Reads};
use std::alloc::{AllocError, Global};
use terms::bounded::Cells;
use terms::limits::{MAX_OBJECTS, MAX_SERVERS};
use waiting::waiting::{Queue, Waiting};

impl Server {
    // A new server: all is zero or empty.
    pub fn new<F: Field + Copy>(heap: Global, code: &Code<F>) -> Result<Server, AllocError>
        ensures new { IfOk result (λ s. server s ≡ new_server (meaning F.arithmetic code.now).cells) }
    {
        let nobody = Told {
            tags: [Tag::zero(); MAX_SERVERS],
        };
        Ok(Server {
            clock: [0; MAX_SERVERS],
            top: 0,
            symbol: zero_cells(code),
            own: [Tag::zero(); MAX_OBJECTS],
            told: [nobody; MAX_OBJECTS],
            history: History::new(heap)?,
            waiting: Queue::new(heap)?,
            reads: Reads::new(heap)?,
            opened: 0,
        })
    }

    // An entry more in the history; a full one stays as it is.
    pub fn enter(&mut self, e: Entry)
        ensures after { server self.new ≡ (if nat_lt (length (server self.old).history) max_entries then entered (server self.old) (entry e) else server self.old) }
    {
        self.history.enter(e);
    }

    // A write of j is applied: its count becomes `count`, and the greatest height is at least `height`.
    pub(crate) fn count(&mut self, j: ServerNumber, count: u32, height: u32)
        requires { count ≤ max_count }
        ensures after { server self.new ≡ counted (server self.old) j.number count height }
    {
        self.clock[j.number] = count;
        self.top = self.top.max(height);
    }

    // A write more that waits; a full queue stays as it is.
    pub fn queue(&mut self, w: Waiting)
        ensures after { server self.new ≡ (if nat_lt (length (server self.old).waiting) max_waiting then queued (server self.old) ((server self.old).waiting ++ write w ∷ []) else server self.old) }
    {
        self.waiting.enter(w);
    }

    // The server j told the tag of an object.
    pub fn hear(&mut self, object: ObjectNumber, j: ServerNumber, tag: Tag)
        ensures after { server self.new ≡ hearing (server self.old) object.number j.number tag }
    {
        self.told[object.number].tags[j.number] = tag;
    }

    // This server, number `me`, has another own tag of the object, with another symbol.
    pub fn move_to(&mut self, me: ServerNumber, object: ObjectNumber, tag: Tag, symbol: Cells)
        ensures after { server self.new ≡ moved (server self.old) me.number object.number tag (items symbol) }
    {
        self.hear(object, me, tag);
        self.own[object.number] = tag;
        self.symbol = symbol;
    }

    // Another read at a place.
    pub fn put_read(&mut self, i: ReadPlace, r: Read)
        ensures after { server self.new ≡ reading (server self.old) (upd (server self.old).reads i.number (read r)) }
    {
        self.reads.put(i, r);
    }

    // A newer write of the object, for the clients' reads.
    pub fn overtake(&mut self, all: bool, object: usize, tag: Tag, value: Cells)
        ensures after { server self.new ≡ reading (server self.old) (overtaken (server self.old).reads all object tag (items value)) }
    {
        self.reads.overtake(all, object, tag, value);
    }
}

// The single changes of a server, each of which keeps it within the ranges of messages.
ghost use Rattle.std.specs.Prelude.{◌≡◌, ℕ, ◌≤◌, true, [], ◌∷◌, ◌++◌, length, if◌then◌else◌, nat_lt};
ghost use Rattle.terms.specs.Items.{items};
ghost use Rattle.terms.specs.Limits.{max_entries, max_waiting};
ghost use Rattle.rules.specs.Words.{upd};
ghost use Rattle.rules.specs.Updates.{entered, queued, reading, hearing, moved};
ghost use Rattle.history.specs.Entries.{entry};
ghost use Rattle.reads.specs.Readings.{read};
ghost use Rattle.waiting.specs.Writes.{write};
ghost use Rattle.server.specs.Servers.{server};
ghost use Rattle.teller.specs.InRange.{entry_ok, write_ok, asked_ok};

use super::Teller;
use crate::values::Own;
use history::history::Entry;
use message::tag::Tag;
use reads::numbers::{ObjectNumber, ReadPlace, ServerNumber};
use reads::reads::Read;
use waiting::waiting::Waiting;

impl Teller {
    // An entry more in the history; a full one stays as it is.
    pub fn enter(&mut self, e: Entry)
        requires { entry_ok (entry e) ≡ true }
        ensures after { server self.new.server ≡ (if nat_lt (length (server self.old.server).history) max_entries then entered (server self.old.server) (entry e) else server self.old.server) }
    {
        self.server.enter(e);
    }

    // A write more that waits; a full queue stays as it is.
    pub fn queue(&mut self, w: Waiting)
        requires { write_ok (write w) ≡ true }
        ensures after { server self.new.server ≡ (if nat_lt (length (server self.old.server).waiting) max_waiting then queued (server self.old.server) ((server self.old.server).waiting ++ write w ∷ []) else server self.old.server) }
    {
        self.server.queue(w);
    }

    // The server j told the tag of an object.
    pub fn hear(&mut self, object: ObjectNumber, j: ServerNumber, tag: Tag)
        ensures after { server self.new.server ≡ hearing (server self.old.server) object.number j.number tag }
    {
        self.server.hear(object, j, tag);
    }

    // This server, number `me`, has another own tag of the object, with another symbol.
    pub fn move_to(&mut self, me: ServerNumber, object: ObjectNumber, to: Own)
        ensures after { server self.new.server ≡ moved (server self.old.server) me.number object.number to.tag (items to.symbol.cells) }
    {
        self.server.move_to(me, object, to.tag, to.symbol.cells);
    }

    // Another read at a place.
    pub fn put_read(&mut self, i: ReadPlace, r: Read)
        requires { (x : ℕ) → asked_ok (read r) x ≡ true }
        ensures after { server self.new.server ≡ reading (server self.old.server) (upd (server self.old.server).reads i.number (read r)) }
    {
        self.server.put_read(i, r);
    }
}

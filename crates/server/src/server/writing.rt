// A write of the server's own, and the next waiting write applied.
ghost use Rattle.std.specs.Prelude.{◌≡◌, ◌+◌, ◌<◌, ◌≤◌, ⊤, true, false, length, None, nat_lt};
ghost use Rattle.terms.specs.Answers.{Answered};
ghost use Rattle.terms.specs.declared.refusal.Refusal.TheVariants.{HistoryFull};
ghost use Rattle.rules.specs.Turns.{check};
ghost use Rattle.terms.specs.Items.{items};
ghost use Rattle.terms.specs.Limits.{max_entries, max_count};
ghost use Rattle.rules.specs.Writing.{write_tag, write_at};
ghost use Rattle.history.specs.Entries.{entry};
ghost use Rattle.server.specs.Servers.{server};
ghost use Rattle.server.specs.Steps.{has_room, write_refusal, written, after, took_in, applied, apply_answer, apply_after, chosen};
ghost use Rattle.reads.specs.Places.{Inside};

use super::Server;
use history::history::Entry;
use message::tag::Tag;
use reads::numbers::ServerNumber;
use terms::bounded::Cells;
use terms::limits::{MAX_COUNT, MAX_HEIGHT};
use terms::refusal::Refusal;

impl Server {
    // Refuses a write that the server, number `me`, cannot make now.
    pub fn check_write(&self, me: ServerNumber) -> Result<(), Refusal>
        ensures refusal { Answered (write_refusal (server self.now) me.number) (λ _. ⊤) result }
    {
        if self.count_of(me.number) >= MAX_COUNT || self.top >= MAX_HEIGHT {
            return Err(Refusal::NumbersUsedUp);
        }
        self.check_room()
    }

    // Refuses an entry more where the history is full.
    pub fn check_room(&self) -> Result<(), Refusal>
        ensures refusal { Answered (check (has_room (server self.now)) HistoryFull None) (λ _. ⊤) result }
    {
        if !self.history.has_room() {
            return Err(Refusal::HistoryFull);
        }
        Ok(())
    }

    // A write of the object by the server itself, number `me`, applied at once.
    pub fn write(&mut self, me: ServerNumber, object: usize, value: Cells) -> Result<Tag, Refusal>
        ensures answer { Answered (write_refusal (server self.old) me.number) (λ t. t ≡ write_tag (server self.old) me.number) result }
        ensures after { server self.new ≡ after (write_refusal (server self.old) me.number) (server self.old) (written (server self.old) me.number object (items value)) }
    {
        self.check_write(me)?;
        let tag = Tag {
            height: self.top + 1,
            server: me.number as u32,
        };
        let count = self.count_of(me.number) + 1;
        self.take_in(me, count, true, Entry { object, tag, value });
        Ok(tag)
    }

    // A write of j enters: its count, its entry, and the news for the clients' reads.
    fn take_in(&mut self, j: ServerNumber, count: u32, all: bool, e: Entry)
        requires { count ≤ max_count }
        ensures { server self.new ≡ took_in (server self.old) j.number count all (entry e) }
    {
        self.count(j, count, e.tag.height);
        self.enter(e);
        self.overtake(all, e.object, e.tag, e.value);
    }

    // The place of the lowest waiting write that is ready, among n servers.
    pub fn next_ready(&self, n: usize) -> Option<usize>
        ensures place { result ≡ chosen n (server self.now) }
        ensures inside { Inside result (length (server self.now).waiting) }
    {
        self.waiting.next_ready(&self.clock[..], n)
    }

    // Applies the lowest waiting write that is ready, if there is one.
    pub fn apply(&mut self, n: usize) -> Result<Option<Tag>, Refusal>
        ensures answer { result ≡ apply_answer (server self.old) (chosen n (server self.old)) }
        ensures after { server self.new ≡ apply_after (server self.old) (chosen n (server self.old)) }
    {
        let Some(at) = self.next_ready(n) else {
            return Ok(None);
        };
        self.check_room()?;
        Ok(Some(self.apply_at(at)))
    }

    // Applies the waiting write at a place, and tells its tag.
    fn apply_at(&mut self, at: usize) -> Tag
        requires within { at < length (server self.old).waiting }
        requires room { nat_lt (length (server self.old).history) max_entries ≡ true }
        ensures tag { result ≡ (write_at (server self.old).waiting at).tag }
        ensures after { server self.new ≡ applied (server self.old) at }
    {
        let write = self.waiting.remove(at).unwrap();
        let from = ServerNumber::known(write.tag.server as usize);
        let count = write.clock.get_or(from.number, 0);
        let e = Entry {
            object: write.object,
            tag: write.tag,
            value: write.value,
        };
        self.take_in(from, count, false, e);
        write.tag
    }
}

// How the queue of waiting writes changes.
ghost use Rattle.std.specs.Prelude.{◌≡◌, ◌<◌, [], ◌∷◌, ◌++◌, length, IfOk, if◌then◌else◌, Some, None, nat_lt};
ghost use Rattle.std.specs.Option.{option_map};
ghost use Rattle.terms.specs.Limits.{max_waiting};
ghost use Rattle.rules.specs.Writing.{write_at, without};
ghost use Rattle.waiting.specs.Writes.{write, writes};

use super::{Queue, Waiting};
use std::alloc::{AllocError, Global};
use terms::limits::MAX_WAITING;

impl Queue {
    pub fn new(heap: Global) -> Result<Queue, AllocError>
        ensures empty { IfOk result (λ q. writes q ≡ []) }
    {
        Ok(Queue {
            writes: Vec::with_capacity(heap, MAX_WAITING)?,
        })
    }

    // How many writes wait.
    pub fn len(&self) -> usize
        ensures counted { result ≡ length (writes self.now) }
    {
        self.writes.len()
    }

    // Whether the queue takes one write more.
    pub fn has_room(&self) -> bool
        ensures decided { result ≡ nat_lt (length (writes self.now)) max_waiting }
    {
        self.len() < MAX_WAITING
    }

    // A write more, at the end; a full queue stays as it is.
    pub fn enter(&mut self, w: Waiting)
        ensures entered_if_room { writes self.new ≡ (if nat_lt (length (writes self.old)) max_waiting then writes self.old ++ write w ∷ [] else writes self.old) }
    {
        if self.has_room() {
            self.writes.push_reserved(w);
        }
    }

    // Takes the write at a place out of the queue; past the last there is none.
    pub fn remove(&mut self, at: usize) -> Option<Waiting>
        ensures removed { option_map write result ≡ (if nat_lt at (length (writes self.old)) then Some (write_at (writes self.old) at) else None) }
        ensures rest { writes self.new ≡ without (writes self.old) at }
    {
        if at >= self.len() {
            return None;
        }
        Some(self.writes.remove(at))
    }
}

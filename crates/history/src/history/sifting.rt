// Which entries leave a history; the others keep their order.
ghost use Rattle.std.specs.Prelude.{◌≡◌, not, filter};
ghost use Rattle.rules.specs.Histories.{is_entry};
ghost use Rattle.history.specs.Entries.{entry, entries};
ghost use Rattle.reads.specs.Readings.{reads};
ghost use Rattle.history.specs.Sifting.{unwanted_below};

use super::{Entry, History};
use message::tag::Tag;
use reads::reads::Reads;

impl Entry {
    // Whether this is an entry of the object below the floor that no open read wants.
    fn is_unwanted_below(&self, object: usize, floor: Tag, wanting: &Reads) -> bool
        ensures { result ≡ unwanted_below object floor (reads wanting.now) (entry self.now) }
    {
        self.object == object && self.tag < floor && !wanting.want(object, self.tag)
    }
}

impl History {
    // The entries of the object below the floor that no open read wants leave.
    pub fn forget_below(&mut self, object: usize, floor: Tag, wanting: &Reads)
        ensures rest { entries self.new ≡ filter (λ e. not (unwanted_below object floor (reads wanting.now) e)) (entries self.old) }
    {
        self.entries
            .retain(|e| !e.is_unwanted_below(object, floor, wanting));
    }

    // The entries of the object under the tag leave.
    pub fn forget(&mut self, object: usize, tag: Tag)
        ensures rest { entries self.new ≡ filter (λ e. not (is_entry object tag e)) (entries self.old) }
    {
        self.entries.retain(|e| !e.is(object, tag));
    }
}

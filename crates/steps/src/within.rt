// How far a server may move its own tag of an object that it does not contain.
ghost use Rattle.std.specs.Prelude.{◌≡◌, ℕ, ◌<◌, not, ◌||◌};
ghost use Rattle.std.specs.List.{list_all, range_with_len};
ghost use Rattle.message.specs.Tags.{lower};
ghost use Rattle.code.specs.Codings.{contains};
ghost use Rattle.code.specs.Meaning.{meaning};
ghost use Rattle.rules.specs.Encoding.{within};
ghost use Rattle.rules.specs.Histories.{highest};
ghost use Rattle.server.specs.Servers.{server};
ghost use Rattle.server.specs.Steps.{laid};
ghost use Rattle.steps.specs.Within.{rises};
ghost use Rattle.history.specs.Entries.{entry};

use crate::shares::Share;
use field::interface::Field;
use history::history::Entry;
use message::tag::Tag;
use server::server::Server;

impl<F: Field + Copy> Share<'_, F> {
    // Whether the server j lets the own tag of the object rise to this one: it does not contain the object, or has told no lower tag.
    fn lets_rise(&self, p: &Server, tag: Tag, j: usize) -> bool
        ensures { result ≡ (not (contains (meaning F.arithmetic self.now.code.now) j self.now.object.number) || not (lower ((server p.now).told self.now.object.number j) tag)) }
    {
        !self.is_contained_by(j) || p.told_tag(self.object.number, j) >= tag
    }

    // Whether all servers let the own tag of the object rise to this one.
    fn may_rise(&self, p: &Server, tag: Tag) -> bool
        ensures { (places : ℕ) → result ≡ within (laid (meaning F.arithmetic self.now.code.now) places) (server p.now) self.now.object.number tag }
    {
        self.all_let_rise(p, tag, self.code.servers())
    }

    fn all_let_rise(&self, p: &Server, tag: Tag, n: usize) -> bool
        ensures { result ≡ list_all (λ j. not (contains (meaning F.arithmetic self.now.code.now) j self.now.object.number) || not (lower ((server p.now).told self.now.object.number j) tag)) (range_with_len 0 n) }
    {
        (0..n).all(|j| self.lets_rise(p, tag, j))
    }

    // Whether the entry is one of the object with a higher tag to which the own tag may rise.
    fn rises(&self, p: &Server, best: Tag, e: &Entry) -> bool
        ensures { (places : ℕ) → result ≡ rises (within (laid (meaning F.arithmetic self.now.code.now) places) (server p.now) self.now.object.number) self.now.object.number best (entry e.now) }
    {
        e.object == self.object.number && best < e.tag && self.may_rise(p, e.tag)
    }

    // The highest tag in the history to which the own tag of the object may rise, or the zero tag.
    pub(crate) fn highest_within(&self, p: &Server) -> Tag
        ensures { (places : ℕ) → result ≡ highest (within (laid (meaning F.arithmetic self.now.code.now) places) (server p.now) self.now.object.number) self.now.object.number (server p.now).history }
    {
        let mut best = Tag::zero();
        for e in p.history().as_slice() {
            if self.rises(p, best, e) {
                best = e.tag;
            }
        }
        best
    }
}

// What a history holds.
ghost use Rattle.std.specs.Prelude.{◌≡◌, ℕ, ◌<◌, ◌≤◌, Bool, true, map, length, nat_lt};
ghost use Rattle.std.specs.Fn.{AlwaysReturns};
ghost use Rattle.std.specs.List.{position_from};
ghost use Rattle.terms.specs.Items.{items};
ghost use Rattle.terms.specs.Limits.{max_entries};
ghost use Rattle.rules.specs.Histories.{is_entry, holds, value_under, highest, highest_held, zero_record};
ghost use Rattle.code.specs.Meaning.{meaning};
ghost use Rattle.history.specs.Entries.{entry, entries, place_of, value_at, raises, rises};

use super::{Entry, History};
use code::code::Code;
use field::interface::Field;
use message::tag::Tag;
use terms::bounded::Cells;
use terms::limits::MAX_ENTRIES;

impl Entry {
    // Whether this is the entry of the object under the tag.
    pub(crate) fn is(&self, object: usize, tag: Tag) -> bool
        ensures { result ≡ is_entry object tag (entry self.now) }
    {
        self.object == object && self.tag == tag
    }

    // Whether this is an entry of the object with a higher tag.
    fn raises(&self, object: usize, tag: Tag) -> bool
        ensures { result ≡ raises object tag (entry self.now) }
    {
        self.object == object && tag < self.tag
    }

    // Whether this is an entry of the object with a higher tag that passes the test.
    fn rises<F: Fn(Tag) -> bool>(&self, object: usize, tag: Tag, test: &F) -> bool
        requires { F.IsAlwaysCallable test.now }
        ensures { (p : Tag → Bool) → AlwaysReturns F.FnMut (λ a b. b ≡ p a.0) test.now → result ≡ rises p object tag (entry self.now) }
    {
        self.raises(object, tag) && test(self.tag)
    }
}

impl History {
    // The entries, the earliest first.
    pub fn as_slice(&self) -> &[Entry]
        ensures shown { map entry result.now ≡ entries self.now }
    {
        self.entries.as_slice()
    }

    // How many entries there are.
    pub fn len(&self) -> usize
        ensures counted { result ≡ length (entries self.now) }
    {
        self.entries.len()
    }

    // Whether the history takes one entry more.
    pub fn has_room(&self) -> bool
        ensures decided { result ≡ nat_lt (length (entries self.now)) max_entries }
    {
        self.len() < MAX_ENTRIES
    }

    // Where the object's value under the tag lies: the zero record lies past all entries.
    pub fn find(&self, object: usize, tag: Tag) -> Option<usize>
        ensures place { result ≡ place_of (entries self.now) object tag }
    {
        if tag == Tag::zero() {
            return Some(self.len());
        }
        self.first(object, tag)
    }

    // The first entry of the object under the tag.
    fn first(&self, object: usize, tag: Tag) -> Option<usize>
        ensures { result ≡ position_from (is_entry object tag) 0 (entries self.now) }
    {
        self.entries.iter().position(|e| e.is(object, tag))
    }

    // Whether the object's value under the tag is held.
    pub fn holds(&self, object: usize, tag: Tag) -> bool
        ensures decided { result ≡ holds (entries self.now) object tag }
    {
        self.find(object, tag).is_some()
    }

    // The value at a place that was found; past all entries it is the zero record.
    pub fn value_at<F: Field + Copy>(&self, code: &Code<F>, at: usize) -> Cells
        ensures value { items result ≡ value_at (meaning F.arithmetic code.now).cells (entries self.now) at }
    {
        match self.entries.get(at) {
            Some(entry) => entry.value,
            None => zero_cells(code),
        }
    }

    // The object's value under the tag, and the zero record where it is not held.
    pub fn value_under<F: Field + Copy>(&self, code: &Code<F>, object: usize, tag: Tag) -> Cells
        ensures value { items result ≡ value_under (meaning F.arithmetic code.now).cells (entries self.now) object tag }
    {
        let Some(at) = self.find(object, tag) else {
            return zero_cells(code);
        };
        self.value_at(code, at)
    }

    // The highest tag of the object that is held, or the zero tag.
    pub fn highest(&self, object: usize) -> Tag
        ensures highest { result ≡ highest_held (entries self.now) object }
    {
        self.highest_where(object, |_| true)
    }

    // The highest tag of the object that is held and passes the test, or the zero tag.
    pub fn highest_where<F: Fn(Tag) -> bool>(&self, object: usize, test: F) -> Tag
        requires { F.IsAlwaysCallable test }
        ensures highest { (p : Tag → Bool) → AlwaysReturns F.FnMut (λ a b. b ≡ p a.0) test → result ≡ highest p object (entries self.now) }
    {
        let mut best = Tag::zero();
        for e in self.entries.iter() {
            if e.rises(object, best, &test) {
                best = e.tag;
            }
        }
        best
    }
}

// The zero record: as many zero cells as a value of the code has.
pub fn zero_cells<F: Field + Copy>(code: &Code<F>) -> Cells
    ensures value { items result ≡ zero_record (meaning F.arithmetic code.now).cells }
{
    Cells::from_fn(0, code.cells(), |_| 0)
}

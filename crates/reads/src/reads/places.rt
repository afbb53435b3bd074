// The table of reads: what is found in it, and how it changes.
ghost use Rattle.std.specs.Prelude.{◌≡◌, ℕ, ◌<◌, ◌≤◌, Bool, ◌++◌, map, length, take, drop, IfOk};
ghost use Rattle.std.specs.Fn.{ComputesKey};
ghost use Rattle.terms.specs.Items.{items};
ghost use Rattle.terms.specs.Limits.{max_client_reads};
ghost use Rattle.rules.specs.State.{Free, all_reads, Read as ReadState};
ghost use Rattle.rules.specs.Words.{upd, some, first_below};
ghost use Rattle.rules.specs.Updates.{overtaken};
ghost use Rattle.rules.specs.Encoding.{asks};
ghost use Rattle.reads.specs.Places.{Inside};
ghost use Rattle.reads.specs.Readings.{read, reads, event_of, next, passes as is_sought};

use super::{Event, Read, Reads, Sought};
use crate::numbers::ReadPlace;
use message::tag::Tag;
use std::alloc::{AllocError, Global};
use terms::bounded::Cells;
use terms::limits::{MAX_CLIENT_READS, MAX_READS};

impl Reads {
    // All places free.
    pub fn new(heap: Global) -> Result<Reads, AllocError>
        ensures all_free { IfOk result (λ rs. reads rs ≡ (λ _. Free)) }
    {
        let places = Vec::from_slice(heap, &[Read::Free; MAX_READS])?;
        Ok(Reads { places })
    }

    // The read at a place; there is none past the last.
    pub fn at(&self, i: usize) -> Read
        ensures found { read result ≡ reads self.now i }
    {
        self.places.get(i).copied().unwrap_or(Read::Free)
    }

    // The first of the first n places whose read is what is looked for.
    pub fn find(&self, n: usize, sought: Sought) -> Option<usize>
        ensures place { result ≡ first_below n (λ i. is_sought sought (reads self.now i)) }
        ensures inside { Inside result n }
    {
        self.find_where(n, |read| read.is(sought))
    }

    // The first of the first n places whose read passes the test.
    pub fn find_where<F: Fn(&Read) -> bool>(&self, n: usize, test: F) -> Option<usize>
        requires { F.IsAlwaysCallable test }
        ensures place { (p : ReadState → Bool) → ComputesKey F.FnMut (λ r. p (read r)) test → result ≡ first_below n (λ i. p (reads self.now i)) }
        ensures inside { Inside result n }
    {
        (0..n).position(|i| self.passes(i, &test))
    }

    fn passes<F: Fn(&Read) -> bool>(&self, i: usize, test: &F) -> bool
        requires { F.IsAlwaysCallable test.now }
        ensures { (p : ReadState → Bool) → ComputesKey F.FnMut (λ r. p (read r)) test.now → result ≡ p (reads self.now i) }
    {
        test(&self.at(i))
    }

    // Whether an open read has this tag of the object.
    pub fn want(&self, object: usize, tag: Tag) -> bool
        ensures decided { result ≡ some all_reads (λ i. asks object tag (reads self.now i)) }
    {
        self.places.iter().any(|read| read.asks(object, tag))
    }

    // Another read at a place.
    pub fn put(&mut self, i: ReadPlace, r: Read)
        ensures after { reads self.new ≡ upd (reads self.old) i.number (read r) }
    {
        self.places[i.number] = r;
    }

    // An event at one place.
    pub fn tell(&mut self, i: ReadPlace, event: Event)
        ensures after { reads self.new ≡ upd (reads self.old) i.number (next (reads self.old i.number) (event_of event)) }
    {
        let read = self.at(i.number);
        self.put(i, read.next(event));
    }

    // A newer write of the object, at each place of a client.
    pub fn overtake(&mut self, all: bool, object: usize, tag: Tag, value: Cells)
        ensures after { reads self.new ≡ overtaken (reads self.old) all object tag (items value) }
    {
        let event = Event::Newer {
            all,
            object,
            tag,
            value,
        };
        tell_clients(self.places.as_mut_slice(), event);
    }
}

// An event at each place of a client.
fn tell_clients(places: &mut [Read], event: Event)
    requires { max_client_reads ≤ length places.old }
    ensures { map read places.new ≡ map (λ r. next r (event_of event)) (take max_client_reads (map read places.old)) ++ drop max_client_reads (map read places.old) }
{
    for read in &mut places[..MAX_CLIENT_READS] {
        *read = read.next(event);
    }
}

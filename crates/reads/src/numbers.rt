// Numbers that are known to be in bounds, so that what takes one need not refuse it.
ghost use Rattle.std.specs.Prelude.{◌≡◌, ℕ, ◌<◌, ◌≤◌, ⊤, MatchOption, nat_lt};
ghost use Rattle.terms.specs.Limits.{max_servers, max_objects, max_client_reads};
ghost use Rattle.rules.specs.State.{all_reads, internal};

use std::alloc::AllocError;
use std::marker::PhantomData;
use terms::limits::{MAX_CLIENT_READS, MAX_OBJECTS, MAX_READS, MAX_SERVERS};

// What a number numbers, and how many of those there may be.
pub trait Kind {
    ghost MAX: { ℕ };

    const MAX: usize;
}

// A number of one kind cannot be passed for one of another.
pub struct Number<K: Kind> {
    pub number: usize,
    pub of: PhantomData<K>,
    ghost within: { number < K.MAX },
}

impl<K: Kind> Copy for Number<K> {}

impl<K: Kind> Clone for Number<K> {
    ghost is_clone = { λ number copied. copied ≡ number };

    ghost is_infallible = { λ _. ⊤ };

    fn clone(&self) -> Result<Self, AllocError> {
        Ok(*self)
    }
}

impl<K: Kind> Number<K> {
    // A number is taken if it is in bounds.
    pub fn new(number: usize) -> Option<Number<K>>
        ensures taken_if_in_bounds { MatchOption result (K.MAX ≤ number) (λ taken. taken.number ≡ number) }
    {
        if number < K::MAX {
            Some(Number::known(number))
        } else {
            None
        }
    }

    // A number that is known to be in bounds.
    pub fn known(number: usize) -> Number<K>
        requires in_bounds { number < K.MAX }
        ensures same { result.number ≡ number }
    {
        Number {
            number,
            of: PhantomData,
        }
    }
}

#[derive(Clone, Copy)]
pub struct Servers;

impl Kind for Servers {
    ghost MAX = { max_servers };

    const MAX: usize = MAX_SERVERS;
}

#[derive(Clone, Copy)]
pub struct Objects;

impl Kind for Objects {
    ghost MAX = { max_objects };

    const MAX: usize = MAX_OBJECTS;
}

// The places for reads in a server's table.
#[derive(Clone, Copy)]
pub struct ReadPlaces;

impl Kind for ReadPlaces {
    ghost MAX = { all_reads };

    const MAX: usize = MAX_READS;
}

pub type ServerNumber = Number<Servers>;

pub type ObjectNumber = Number<Objects>;

pub type ReadPlace = Number<ReadPlaces>;

impl Number<ReadPlaces> {
    // The place of the internal read of an object, behind those of the clients.
    pub fn internal(object: ObjectNumber) -> ReadPlace
        ensures placed { result.number ≡ internal object.number }
    {
        Number::known(MAX_CLIENT_READS + object.number)
    }

    // Whether this is a place of a client, and not of an internal read.
    pub fn is_clients(self) -> bool
        ensures decided { result ≡ nat_lt self.number max_client_reads }
    {
        self.number < MAX_CLIENT_READS
    }
}

// Lanes as blocks of places, one memory for all. The carriers differ only in the kind of place.
ghost use Rattle.std.specs.Prelude.{◌≡◌, ℕ, ◌-◌, ◌*◌, ◌≤◌, length, vec_len, slice_index};
ghost use Rattle.terms.specs.Limits.{min_servers, max_servers, min_places, max_places, max_lanes};

use crate::parcel::Parcel;
use message::kinds::Message;
use std::error::Error;
use std::fmt;
use terms::limits::MAX_LANES;
use terms::refusal::Refusal;

pub mod carry;
pub mod layout;

// `n` servers, `p` places to a lane; lane k has its messages in the first `used[k]` places of block k.
#[derive(Drop)]
pub struct Blocks<P> {
    n: usize,
    p: usize,
    memory: Vec<P>,
    used: [usize; MAX_LANES],
    ghost enough_servers: { min_servers ≤ n },
    ghost few_servers: { n ≤ max_servers },
    ghost some_places: { min_places ≤ p },
    ghost few_places: { p ≤ max_places },
    ghost room: { n * (n - 1) * p ≤ vec_len memory },
    ghost counted: { length used ≡ max_lanes },
    ghost within: { (k : ℕ) → slice_index used k ≤ p },
}

// A refusal to lay a carrier, which gives the memory back.
#[derive(Drop)]
pub struct NotLaid<P> {
    pub refusal: Refusal,
    pub memory: Vec<P>,
}

// It tells its refusal alone.
impl<P> fmt::Display for NotLaid<P> {
    fn fmt<W: fmt::Write>(&self, f: &mut fmt::Formatter<W>) -> fmt::Result {
        let refusal = self.refusal;
        write!(f, "{refusal}")
    }
}

impl<P> fmt::Debug for NotLaid<P> {
    fn fmt<W: fmt::Write>(&self, f: &mut fmt::Formatter<W>) -> fmt::Result {
        let refusal = self.refusal;
        write!(f, "{refusal:?}")
    }
}

impl<P: Drop> Error for NotLaid<P> {}

// Keeps each message as it is.
pub type RecordCarrier = Blocks<Message>;
// Keeps each message as bytes.
pub type ByteCarrier = Blocks<Parcel>;

// Messages to all other servers.
ghost use Rattle.std.specs.Prelude.{◌≡◌, ℕ, ◌<◌, ◌≤◌, true, ◌||◌, length, ◌==◌, nat_lt};
ghost use Rattle.std.specs.List.{list_all, range_with_len};
ghost use Rattle.message.specs.Meanings.{meaning};
ghost use Rattle.message.specs.Ranges.{in_range};
ghost use Rattle.rules.specs.Lanes.{spread, free};
ghost use Rattle.calls.specs.Posting.{posted_other, SameSizes};

use carrier::lanes::Carrier;
use message::kinds::Message;

// One of the first `servers`, which tells all others of them.
#[derive(Clone, Copy)]
pub(crate) struct Sender {
    pub(crate) from: usize,
    pub(crate) servers: usize,
    ghost within: { from < servers },
}

impl Sender {
    // Whether each lane to another server has a free place.
    pub(crate) fn all_free<C: Carrier>(self, carrier: &C) -> bool
        requires carried { self.servers ≤ C.n carrier.now }
        ensures { result ≡ free (C.p carrier.now) (C.lanes carrier.now) self.from self.servers }
    {
        self.all_have_place(carrier)
    }

    fn all_have_place<C: Carrier>(self, carrier: &C) -> bool
        requires carried { self.servers ≤ C.n carrier.now }
        ensures { result ≡ list_all (λ j. j == self.from || nat_lt (length (C.lanes carrier.now self.from j)) (C.p carrier.now)) (range_with_len 0 self.servers) }
    {
        (0..self.servers).all(|to| has_place(carrier, self.from, to))
    }

    // Posts a message to each other server.
    pub(crate) fn post_all<C: Carrier>(self, carrier: &mut C, m: Message)
        requires carried { self.servers ≤ C.n carrier.old }
        requires room { free (C.p carrier.old) (C.lanes carrier.old) self.from self.servers ≡ true }
        requires range { in_range (meaning m) ≡ true }
        ensures lanes_after { C.lanes carrier.new ≡ spread (C.lanes carrier.old) self.from self.servers (meaning m) }
        ensures same_sizes { SameSizes C.n C.p carrier.new carrier.old }
    {
        for to in 0..self.servers {
            post_one(carrier, self.from, to, m);
        }
    }
}

// Whether the lane from one server to another has a free place; none is needed from a server to itself.
pub(crate) fn has_place<C: Carrier>(carrier: &C, from: usize, to: usize) -> bool
    requires from_within { from < C.n carrier.now }
    requires to_within { to < C.n carrier.now }
    ensures { result ≡ (to == from || nat_lt (length (C.lanes carrier.now from to)) (C.p carrier.now)) }
{
    carrier
        .len(from, to)
        .map_or(true, |count| count < carrier.places())
}

// Posts a message to one server, unless it is the sender.
fn post_one<C: Carrier>(carrier: &mut C, from: usize, to: usize, m: Message)
    requires from_within { from < C.n carrier.old }
    requires to_within { to < C.n carrier.old }
    requires room { (to == from || nat_lt (length (C.lanes carrier.old from to)) (C.p carrier.old)) ≡ true }
    requires range { in_range (meaning m) ≡ true }
    ensures lanes_after { C.lanes carrier.new ≡ posted_other (C.lanes carrier.old) from to (meaning m) }
    ensures same_sizes { SameSizes C.n C.p carrier.new carrier.old }
{
    if from != to {
        carrier.post(from, to, m).unwrap();
    }
}

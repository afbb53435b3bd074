// Blocks are a carrier, whatever the kind of place.
ghost use Rattle.std.specs.Prelude.{◌≡◌, ◌+◌, ◌-◌, ◌≤◌, length, take, drop};
ghost use Rattle.terms.specs.Answers.{Answered};
ghost use Rattle.terms.specs.Limits.{min_servers, max_servers};
ghost use Rattle.carrier.specs.Blocks.{Found, lanes_of};
ghost use Rattle.carrier.specs.Calls;
ghost use Rattle.carrier.specs.Calls.{nothing_elsewhere};
ghost use Rattle.carrier.specs.Lanes.{ends_refusal};

use super::Blocks;
use crate::lanes::Carrier;
use crate::place::Place;
use message::kinds::Message;
use terms::refusal::Refusal;

impl<P: Place> Carrier for Blocks<P> {
    ghost lanes = { lanes_of P.Place.held };

    ghost n = { λ b. b.n };

    ghost p = { λ b. b.p };

    ghost bounded = { λ b from to. Calls.bounded P.Place.held b from to };

    ghost nowhere_else = { λ b from to e is. nothing_elsewhere P.Place.held b from to e is };

    fn servers(&self) -> usize {
        self.n
    }

    fn places(&self) -> usize {
        self.p
    }

    fn len(&self, from: usize, to: usize) -> Result<usize, Refusal> {
        let k = lane_number(self.n, from, to)?;
        Ok(self.used[k])
    }

    fn first(&self, from: usize, to: usize) -> Result<Message, Refusal> {
        let k = lane_number(self.n, from, to)?;
        if self.used[k] == 0 {
            return Err(Refusal::LaneEmpty);
        }
        Ok(self.memory[k * self.p].message())
    }

    fn post(&mut self, from: usize, to: usize, m: Message) -> Result<(), Refusal> {
        let k = lane_number(self.n, from, to)?;
        let count = self.used[k];
        if count >= self.p {
            return Err(Refusal::LaneFull);
        }
        let at = k * self.p + count;
        self.memory[at].put(&m)?;
        self.used[k] = count + 1;
        Ok(())
    }

    fn take(&mut self, from: usize, to: usize) -> Result<Message, Refusal> {
        let k = lane_number(self.n, from, to)?;
        let count = self.used[k];
        if count == 0 {
            return Err(Refusal::LaneEmpty);
        }
        let at = k * self.p;
        let m = self.memory[at].message();
        shift(self.memory.as_mut_slice(), at, count);
        self.used[k] = count - 1;
        Ok(m)
    }
}

// The number of the lane from one server to another.
fn lane_number(n: usize, from: usize, to: usize) -> Result<usize, Refusal>
    requires { (min_servers ≤ n) × (n ≤ max_servers) }
    ensures answer { Answered (ends_refusal n from to) (λ k. Found n from to k) result }
{
    if from >= n || to >= n {
        return Err(Refusal::NoSuchServer);
    }
    if from == to {
        return Err(Refusal::EqualEnds);
    }
    let nth = if to < from { to } else { to - 1 };
    Ok(from * (n - 1) + nth)
}

// Moves the first of `count` places behind the others.
fn shift<P: Copy>(places: &mut [P], at: usize, count: usize)
    requires { (at + count ≤ length places.old) × (1 ≤ count) }
    ensures below { take at places.new ≡ take at places.old }
    ensures above { drop (at + count) places.new ≡ drop (at + count) places.old }
    ensures moved { take (count - 1) (drop at places.new) ≡ drop 1 (take count (drop at places.old)) }
{
    places[at..at + count].rotate_left(1);
}

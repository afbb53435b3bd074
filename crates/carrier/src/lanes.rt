// What a carrier is, by the lists in its lanes.
ghost use Rattle.std.specs.Prelude.{◌≡◌, ℕ, ◌≤◌, [], ◌∷◌, ⊤, length, drop, Some};
ghost use Rattle.terms.specs.declared.refusal.Refusal.{Refusal};
ghost use Rattle.terms.specs.Answers.{Answered};
ghost use Rattle.message.specs.Meanings.{meaning};
ghost use Rattle.carrier.specs.Lanes.{Lanes, ends_refusal, post_refusal, take_refusal, posted, taken};

use message::kinds::Message;
use terms::refusal::Refusal;

// For each ordered pair of different servers a lane of at most P messages, oldest first.
pub trait Carrier {
    // the list in each lane, by its ends
    ghost lanes: { Self → Lanes };

    // the number of servers
    ghost n: { Self → ℕ };

    // the places of a lane
    ghost p: { Self → ℕ };

    fn servers(&self) -> usize
        ensures told { result ≡ n self.now };

    fn places(&self) -> usize
        ensures told { result ≡ p self.now };

    // How many messages a lane holds.
    fn len(&self, from: usize, to: usize) -> Result<usize, Refusal>
        ensures answer { Answered (ends_refusal (n self.now) from to) (λ c. c ≡ length (lanes self.now from to)) result };

    // The oldest message of a lane.
    fn first(&self, from: usize, to: usize) -> Result<Message, Refusal>
        ensures answer { Answered (take_refusal (n self.now) (lanes self.now) from to) (λ m. lanes self.now from to ≡ meaning m ∷ drop 1 (lanes self.now from to)) result };

    // Adds a message at the end of a lane.
    fn post(&mut self, from: usize, to: usize, m: Message) -> Result<(), Refusal>
        ensures answer { Answered (post_refusal (n self.old) (p self.old) (lanes self.old) from to (meaning m)) (λ _. ⊤) result }
        ensures lanes_after { lanes self.new ≡ posted (n self.old) (p self.old) (lanes self.old) from to (meaning m) }
        ensures same_servers { n self.new ≡ n self.old }
        ensures same_places { p self.new ≡ p self.old };

    // Removes the oldest message of a lane, and answers it.
    fn take(&mut self, from: usize, to: usize) -> Result<Message, Refusal>
        ensures answer { Answered (take_refusal (n self.old) (lanes self.old) from to) (λ m. lanes self.old from to ≡ meaning m ∷ drop 1 (lanes self.old from to)) result }
        ensures lanes_after { lanes self.new ≡ taken (n self.old) (lanes self.old) from to }
        ensures same_servers { n self.new ≡ n self.old }
        ensures same_places { p self.new ≡ p self.old };

    // no lane holds more than its places
    ghost bounded: { (c : Self) (from to : ℕ) → length (lanes c from to) ≤ p c };

    // there are lanes only between different servers
    ghost nowhere_else: { (c : Self) (from to : ℕ) (e : Refusal) → ends_refusal (n c) from to ≡ Some e → lanes c from to ≡ [] };
}

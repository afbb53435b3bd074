// Reads opened, found and collected.
ghost use Rattle.std.specs.Prelude.{◌≡◌, ℕ, ◌+◌, ◌≤◌, ⊤, Bool, length, ◌==◌};
ghost use Rattle.std.specs.Fn.{ComputesKey};
ghost use Rattle.std.specs.Option.{option_map};
ghost use Rattle.terms.specs.Answers.{Answered};
ghost use Rattle.terms.specs.Items.{items};
ghost use Rattle.terms.specs.Sets.{member};
ghost use Rattle.rules.specs.Delivering.{open_place};
ghost use Rattle.rules.specs.Reading.{free_place, client_place};
ghost use Rattle.rules.specs.State.{all_reads, Read as ReadState};
ghost use Rattle.rules.specs.Updates.{opening, new_read};
ghost use Rattle.rules.specs.Words.{first_below};
ghost use Rattle.reads.specs.Readings.{read, given};
ghost use Rattle.server.specs.Servers.{server};
ghost use Rattle.server.specs.Steps.{after, open_refusal, collect_answer, collect_after};

use super::Server;
use reads::numbers::{ReadPlace, ServerNumber};
use reads::reads::{Asking, Event, Given, Read};
use terms::limits::{MAX_CLIENT_READS, MAX_READ, MAX_READS, MAX_SERVERS};
use terms::refusal::Refusal;
use terms::servers::ServerSet;

// The set of one server.
fn only(s: ServerNumber) -> ServerSet
    ensures { (j : ℕ) → member result j ≡ (j == s.number) }
{
    ServerSet::empty()
        .with(s.number)
        .unwrap_or(ServerSet::empty())
}

impl Server {
    // The first of the first n places whose read passes the test.
    fn place_of<F: Fn(&Read) -> bool>(&self, n: usize, test: F) -> Option<ReadPlace>
        requires few { n ≤ all_reads }
        requires callable { F.IsAlwaysCallable test }
        ensures { (p : ReadState → Bool) → ComputesKey F.FnMut (λ r. p (read r)) test → option_map (λ i. i.number) result ≡ first_below n (λ i. p ((server self.now).reads i)) }
    {
        let number = self.reads.find_where(n, test)?;
        Some(ReadPlace::known(number))
    }

    // The first free place of a client.
    pub fn free_place(&self) -> Option<ReadPlace>
        ensures place { option_map (λ i. i.number) result ≡ free_place (server self.now) }
    {
        self.place_of(MAX_CLIENT_READS, |read| read.is_free())
    }

    // The place of the client's read with this number.
    pub fn client_place(&self, number: u32) -> Option<ReadPlace>
        ensures place { option_map (λ i. i.number) result ≡ client_place (server self.now) number }
    {
        self.place_of(MAX_CLIENT_READS, |read| read.has_number(number))
    }

    // The place of the open read with this number.
    pub fn open_place(&self, number: u32) -> Option<ReadPlace>
        ensures place { option_map (λ i. i.number) result ≡ open_place (server self.now) number }
    {
        self.place_of(MAX_READS, |read| read.is_open_as(number))
    }

    // The next read of the object, by the server itself, number `me`.
    fn next_read(&self, me: ServerNumber, object: usize, number: u32) -> Read
        requires { number ≡ (server self.now).opened + 1 }
        ensures { read result ≡ new_read (server self.now) me.number object }
    {
        let tags = self.own;
        let own = self.symbol;
        Read::Open(Asking {
            number,
            object,
            tags,
            hand: only(me),
            own,
            symbols: [own; MAX_SERVERS],
        })
    }

    // Refuses a read more where the numbers of reads are used up.
    pub fn check_open(&self) -> Result<(), Refusal>
        ensures refusal { Answered (open_refusal (server self.now)) (λ _. ⊤) result }
    {
        if self.opened >= MAX_READ {
            return Err(Refusal::NumbersUsedUp);
        }
        Ok(())
    }

    // Opens a read of the object at a place, and tells its number.
    pub fn open(&mut self, me: ServerNumber, i: ReadPlace, object: usize) -> Result<u32, Refusal>
        ensures answer { Answered (open_refusal (server self.old)) (λ m. m ≡ (server self.old).opened + 1) result }
        ensures after { server self.new ≡ after (open_refusal (server self.old)) (server self.old) (opening (server self.old) me.number i.number object) }
    {
        self.check_open()?;
        let number = self.opened + 1;
        let read = self.next_read(me, object, number);
        self.reads.put(i, read);
        self.opened = number;
        Ok(number)
    }

    // The answer of the read at a place, whose place is free then.
    pub fn collect(&mut self, i: ReadPlace) -> Option<Given>
        ensures answer { option_map given result ≡ collect_answer ((server self.old).reads i.number) }
        ensures after { server self.new ≡ collect_after (server self.old) i.number ((server self.old).reads i.number) }
    {
        let Read::Answered(given) = self.reads.at(i.number) else {
            return None;
        };
        self.reads.tell(i, Event::Collected);
        Some(given)
    }
}

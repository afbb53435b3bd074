// What a server of a group keeps, looked up.
ghost use Rattle.std.specs.Prelude.{◌≡◌, not, length, count_by};
ghost use Rattle.std.specs.List.{range_with_len};
ghost use Rattle.terms.specs.Answers.{Answered};
ghost use Rattle.terms.specs.Items.{items};
ghost use Rattle.terms.specs.Limits.{max_client_reads};
ghost use Rattle.terms.specs.Lists.{listed};
ghost use Rattle.code.specs.Meaning.{meaning};
ghost use Rattle.code.specs.Refusing.{place_refusal};
ghost use Rattle.reads.specs.Readings.{reads as reads_of};
ghost use Rattle.rules.specs.Updates.{is_free};
ghost use Rattle.server.specs.Servers.{server as seen};
ghost use Rattle.teller.specs.Tellers.{teller};
ghost use Rattle.group.specs.Lookups.{server_refusal, told_refusal, in_use};
ghost use Rattle.group.specs.States.{server_of};

use super::Group;
use code::code::Code;
use field::interface::Field;
use message::kinds::Clock;
use message::tag::Tag;
use reads::reads::Reads;
use server::server::Server;
use teller::teller::Teller;
use terms::bounded::Cells;
use terms::limits::MAX_CLIENT_READS;
use terms::refusal::Refusal;

impl<F: Field + Copy> Group<F> {
    // The server, if the group has it.
    fn at(&self, server: usize) -> Result<&Teller, Refusal>
        ensures { Answered (server_refusal (meaning F.arithmetic self.now.code) server) (λ p. teller p.now ≡ server_of self.now server) result }
    {
        self.servers.get(server).ok_or(Refusal::NoSuchServer)
    }

    // The server, if the group has it and the object.
    fn at_object(&self, server: usize, object: usize) -> Result<&Teller, Refusal>
        ensures { Answered (place_refusal (meaning F.arithmetic self.now.code) server object) (λ p. teller p.now ≡ server_of self.now server) result }
    {
        let holder = self.at(server)?;
        if object >= self.code.objects() {
            return Err(Refusal::NoSuchObject);
        }
        Ok(holder)
    }

    // How many writes of each server are applied at the server.
    pub fn clock(&self, server: usize) -> Result<Clock, Refusal>
        ensures found_or_refused { Answered (server_refusal (meaning F.arithmetic self.now.code) server) (λ counts. items counts ≡ listed self.now.code.servers (server_of self.now server).clock) result }
    {
        let holder = self.at(server)?;
        Ok(clock_of(&holder.server, &self.code))
    }

    pub fn symbol(&self, server: usize) -> Result<Cells, Refusal>
        ensures found_or_refused { Answered (server_refusal (meaning F.arithmetic self.now.code) server) (λ cells. items cells ≡ (server_of self.now server).symbol) result }
    {
        Ok(self.at(server)?.server.symbol())
    }

    // The server's own tag of the object.
    pub fn own_tag(&self, server: usize, object: usize) -> Result<Tag, Refusal>
        ensures found_or_refused { Answered (place_refusal (meaning F.arithmetic self.now.code) server object) (λ tag. tag ≡ (server_of self.now server).own object) result }
    {
        Ok(self.at_object(server, object)?.server.own_tag(object))
    }

    // The tag of the object that the server `by` has told the server last.
    pub fn told_tag(&self, server: usize, object: usize, by: usize) -> Result<Tag, Refusal>
        ensures found_or_refused { Answered (told_refusal (meaning F.arithmetic self.now.code) server object by) (λ tag. tag ≡ (server_of self.now server).told object by) result }
    {
        let holder = self.at(server)?;
        self.at_object(by, object)?;
        Ok(holder.server.told_tag(object, by))
    }

    // How many entries the server's history has.
    pub fn history_len(&self, server: usize) -> Result<usize, Refusal>
        ensures found_or_refused { Answered (server_refusal (meaning F.arithmetic self.now.code) server) (λ count. count ≡ length (server_of self.now server).history) result }
    {
        Ok(self.at(server)?.server.history().len())
    }

    // How many writes wait at the server.
    pub fn waiting_len(&self, server: usize) -> Result<usize, Refusal>
        ensures found_or_refused { Answered (server_refusal (meaning F.arithmetic self.now.code) server) (λ count. count ≡ length (server_of self.now server).waiting) result }
    {
        Ok(self.at(server)?.server.waiting().len())
    }

    // How many reads of clients are open or answered at the server.
    pub fn reads_len(&self, server: usize) -> Result<usize, Refusal>
        ensures found_or_refused { Answered (server_refusal (meaning F.arithmetic self.now.code) server) (λ count. count ≡ in_use max_client_reads (server_of self.now server).reads) result }
    {
        Ok(used_by_clients(self.at(server)?.server.reads()))
    }
}

// The server's count for each server of the code.
pub fn clock_of<F: Field + Copy>(holder: &Server, code: &Code<F>) -> Clock
    ensures counts { items result ≡ listed code.now.servers (seen holder.now).clock }
{
    Clock::from_fn(0, code.servers(), |j| holder.count_of(j))
}

// How many of the clients' places are not free.
fn used_by_clients(reads: &Reads) -> usize
    ensures { result ≡ in_use max_client_reads (reads_of reads.now) }
{
    used_below(reads, MAX_CLIENT_READS)
}

// How many of the first n places are not free.
fn used_below(reads: &Reads, n: usize) -> usize
    ensures { result ≡ count_by (λ i. not (is_free (reads_of reads.now i))) (range_with_len 0 n) }
{
    (0..n).filter(|i| !reads.at(*i).is_free()).count()
}

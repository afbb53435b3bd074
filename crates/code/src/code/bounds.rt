// The tests of servers, objects and sets of servers, against a code.
ghost use Rattle.std.specs.Prelude.{◌≡◌, ◌<◌, true, None, nat_lt};
ghost use Rattle.terms.specs.Answers.{Answered, unless};
ghost use Rattle.terms.specs.declared.refusal.Refusal.TheVariants.{NoSuchServer, NoSuchObject};
ghost use Rattle.terms.specs.Sets.{member};
ghost use Rattle.code.specs.Meaning.{meaning};
ghost use Rattle.code.specs.Refusing.{known_set, place_refusal, recovers_refusal};

use super::Code;
use field::interface::Field;
use terms::limits::MAX_SERVERS;
use terms::refusal::Refusal;
use terms::servers::ServerSet;

impl<F: Field + Copy> Code<F> {
    // Refuses a server that the code does not have.
    pub fn check_server(&self, server: usize) -> Result<(), Refusal>
        ensures refused_or_within { Answered (unless (nat_lt server self.now.servers) NoSuchServer None) (λ _. server < self.now.servers) result }
    {
        if server < self.servers {
            Ok(())
        } else {
            Err(Refusal::NoSuchServer)
        }
    }

    // Refuses an object that the code does not have.
    pub fn check_object(&self, object: usize) -> Result<(), Refusal>
        ensures refused_or_within { Answered (unless (nat_lt object self.now.objects) NoSuchObject None) (λ _. object < self.now.objects) result }
    {
        if object < self.objects {
            Ok(())
        } else {
            Err(Refusal::NoSuchObject)
        }
    }

    // Refuses a place of the table that the code does not have: the server first, and then the object.
    pub fn check_place(&self, server: usize, object: usize) -> Result<(), Refusal>
        ensures refused_or_within { Answered (place_refusal (meaning F.arithmetic self.now) server object) (λ _. (server < self.now.servers) × (object < self.now.objects)) result }
    {
        self.check_server(server)?;
        self.check_object(object)
    }

    // Refuses a set with a server that the code does not have, and then the object.
    pub(crate) fn check_set(&self, set: &ServerSet, object: usize) -> Result<(), Refusal>
        ensures { Answered (recovers_refusal (meaning F.arithmetic self.now) (member set.now) object) (λ _. (known_set self.now.servers (member set.now) ≡ true) × (object < self.now.objects)) result }
    {
        if !known(set, self.servers) {
            return Err(Refusal::NoSuchServer);
        }
        self.check_object(object)
    }
}

// Whether each server of the set is below n.
fn known(set: &ServerSet, n: usize) -> bool
    ensures { result ≡ known_set n (member set.now) }
{
    (0..MAX_SERVERS).all(|s| !set.has(s) || s < n)
}

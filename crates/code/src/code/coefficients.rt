// The coefficients of a code, and which server contains which object.
ghost use Rattle.std.specs.Prelude.{◌≡◌, ◌<◌};
ghost use Rattle.terms.specs.Answers.{Answered};
ghost use Rattle.code.specs.Codings.{contains};
ghost use Rattle.code.specs.Meaning.{meaning};
ghost use Rattle.code.specs.Refusing.{place_refusal};

use super::Code;
use field::interface::Field;
use terms::refusal::Refusal;

impl<F: Field + Copy> Code<F> {
    // The coefficient of a server and an object.
    pub fn coefficient(&self, server: usize, object: usize) -> Result<u8, Refusal>
        ensures found_or_refused { Answered (place_refusal (meaning F.arithmetic self.now) server object) (λ v. v ≡ (meaning F.arithmetic self.now).coefficient server object) result }
    {
        self.check_place(server, object)?;
        Ok(self.at(server, object))
    }

    // Whether the server's coefficient of the object is not 0.
    pub fn contains(&self, server: usize, object: usize) -> Result<bool, Refusal>
        ensures found_or_refused { Answered (place_refusal (meaning F.arithmetic self.now) server object) (λ b. b ≡ contains (meaning F.arithmetic self.now) server object) result }
    {
        Ok(self.coefficient(server, object)? != 0)
    }

    // The coefficient, once the server and the object are known to be within.
    pub(crate) fn at(&self, server: usize, object: usize) -> u8
        requires server_within { server < self.now.servers }
        requires object_within { object < self.now.objects }
        ensures { result ≡ (meaning F.arithmetic self.now).coefficient server object }
    {
        self.table.get_or(server * self.objects + object, 0)
    }
}

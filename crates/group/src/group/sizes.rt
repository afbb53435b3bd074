// The sizes of a group, and which sets of its servers recover which objects.
ghost use Rattle.std.specs.Prelude.{◌≡◌, Decides};
ghost use Rattle.terms.specs.Answers.{Answered};
ghost use Rattle.terms.specs.Sets.{member};
ghost use Rattle.code.specs.Meaning.{meaning};
ghost use Rattle.code.specs.Recovery.{Recovers};
ghost use Rattle.code.specs.Refusing.{recovers_refusal};

use super::Group;
use field::interface::Field;
use terms::refusal::Refusal;
use terms::servers::ServerSet;

impl<F: Field + Copy> Group<F> {
    pub fn servers(&self) -> usize
        ensures counted { result ≡ (meaning F.arithmetic self.now.code).servers }
    {
        self.code.servers()
    }

    pub fn objects(&self) -> usize
        ensures counted { result ≡ (meaning F.arithmetic self.now.code).objects }
    {
        self.code.objects()
    }

    // How many cells a value has.
    pub fn cells(&self) -> usize
        ensures counted { result ≡ (meaning F.arithmetic self.now.code).cells }
    {
        self.code.cells()
    }

    // Whether the servers of the set recover the object.
    pub fn recovers(&self, set: &ServerSet, object: usize) -> Result<bool, Refusal>
        ensures decided_or_refused { Answered (recovers_refusal (meaning F.arithmetic self.now.code) (member set.now) object) (λ b. Decides b (Recovers (meaning F.arithmetic self.now.code) (member set.now) object)) result }
    {
        self.code.recovers(set, object)
    }
}

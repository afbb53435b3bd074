// The sizes of a code.
ghost use Rattle.std.specs.Prelude.{◌≡◌};
ghost use Rattle.code.specs.Meaning.{meaning};

use super::Code;
use field::interface::Field;

impl<F: Field + Copy> Code<F> {
    pub fn servers(&self) -> usize
        ensures counted { result ≡ (meaning F.arithmetic self.now).servers }
    {
        self.servers
    }

    pub fn objects(&self) -> usize
        ensures counted { result ≡ (meaning F.arithmetic self.now).objects }
    {
        self.objects
    }

    // How many cells a value has.
    pub fn cells(&self) -> usize
        ensures counted { result ≡ (meaning F.arithmetic self.now).cells }
    {
        self.cells
    }
}

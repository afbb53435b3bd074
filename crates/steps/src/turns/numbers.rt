// The numbers by which outcomes are told.
ghost use Rattle.std.specs.Prelude.{◌≡◌};
ghost use Rattle.steps.specs.Told.{encoded_number};

use super::Encoded;

impl Encoded {
    // The number by which an outcome is told.
    pub fn number(self) -> u8
        ensures numbered { result ≡ encoded_number self }
    {
        self as u8
    }
}

// The shares at a server.
ghost use Rattle.std.specs.Prelude.{◌≡◌, ◌<◌};

use super::Seat;
use field::interface::Field;
use reads::numbers::ObjectNumber;
use std::marker::PhantomData;
use steps::shares::Share;

impl<'a, F: Field + Copy> Seat<'a, F> {
    // The share of an object of the code in the server's symbol.
    pub fn share(&self, object: usize) -> Share<'a, F>
        requires { object < self.now.code.now.objects }
        ensures same_code { result.code.now ≡ self.now.code.now }
        ensures same_server { result.server.number ≡ self.now.server.number }
        ensures of_the_object { result.object.number ≡ object }
    {
        Share {
            code: self.code,
            server: self.server,
            object: ObjectNumber {
                number: object,
                of: PhantomData,
            },
        }
    }
}

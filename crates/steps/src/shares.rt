// An object's share in the symbol of a server. What is known of the two numbers goes with them.
ghost use Rattle.std.specs.Prelude.{◌<◌};

use code::code::Code;
use reads::numbers::{ObjectNumber, ServerNumber};

pub mod methods;

// The share of an object of the code in the symbol of a server of it.
#[derive(Drop)]
pub struct Share<'a, F: Copy> {
    pub code: &'a Code<F>,
    pub server: ServerNumber,
    pub object: ObjectNumber,
    ghost server_within: { server.number < code.now.servers },
    ghost object_within: { object.number < code.now.objects },
}

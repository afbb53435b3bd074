// A server of a code. What is known of its number goes with it.
ghost use Rattle.std.specs.Prelude.{◌<◌};

use code::code::Code;
use reads::numbers::ServerNumber;

pub mod methods;

// A server of the code: the one that replies, or the sender of a reply.
#[derive(Drop)]
pub struct Seat<'a, F: Copy> {
    pub code: &'a Code<F>,
    pub server: ServerNumber,
    ghost within: { server.number < code.now.servers },
}

// A server whose own tags, symbol, history, waiting writes and open reads are all within the ranges of messages.
ghost use Rattle.std.specs.Prelude.{◌≡◌, IfOk};
ghost use Rattle.terms.specs.Items.{items};
ghost use Rattle.code.specs.Meaning.{meaning};
ghost use Rattle.rules.specs.State.{new_server};
ghost use Rattle.server.specs.Servers.{server as seen};
ghost use Rattle.teller.specs.InRange.{InRange};

use crate::values::Value;
use code::code::Code;
use field::interface::Field;
use server::server::Server;
use std::alloc::{AllocError, Global};

pub mod changes;
pub mod steps;

#[derive(Drop)]
pub struct Teller {
    pub server: Server,
    ghost in_range: { InRange (seen server) },
}

impl Teller {
    // A new server: all is zero or empty.
    pub fn new<F: Field + Copy>(heap: Global, code: &Code<F>) -> Result<Teller, AllocError>
        ensures new { IfOk result (λ t. seen t.server ≡ new_server (meaning F.arithmetic code.now).cells) }
    {
        Ok(Teller {
            server: Server::new(heap, code)?,
        })
    }

    pub fn symbol(&self) -> Value
        ensures told { items result.cells ≡ (seen self.now.server).symbol }
    {
        Value {
            cells: self.server.symbol(),
        }
    }
}

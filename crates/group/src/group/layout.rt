// Laying out a group.
ghost use Rattle.std.specs.Prelude.{◌≡◌, ℕ, IfOk, vec_len, MatchResult};
ghost use Rattle.code.specs.Layout.{coding};
ghost use Rattle.code.specs.Meaning.{meaning};
ghost use Rattle.group.specs.States.{AllNew, New, WhyNotMade};

use super::{Group, NotMade};
use code::code::Code;
use field::interface::Field;
use std::alloc::{AllocError, Global};
use teller::teller::Teller;

impl<F: Field + Copy> Group<F> {
    // A new group over the code of a table that has a row of coefficients for each server, one row after the other.
    pub fn new(
        heap: Global,
        field: F,
        servers: usize,
        objects: usize,
        cells: usize,
        table: &[u8],
    ) -> Result<Group<F>, NotMade>
        ensures new_or_not_made { MatchResult result (New (coding F.arithmetic servers objects cells table.now) F.arithmetic) (WhyNotMade F.arithmetic.size servers objects cells table.now (coding F.arithmetic servers objects cells table.now)) }
    {
        let code = Code::new(field, servers, objects, cells, table)?;
        let servers = new_servers(heap, &code)?;
        Ok(Group { code, servers })
    }
}

// A new server for each of the code's.
fn new_servers<F: Field + Copy>(heap: Global, code: &Code<F>) -> Result<Vec<Teller>, AllocError>
    ensures { IfOk result (λ v. (vec_len v ≡ (meaning F.arithmetic code.now).servers) × AllNew (meaning F.arithmetic code.now).cells v.items) }
{
    let mut servers = Vec::new(heap);
    for _ in 0..code.servers() {
        servers.push(Teller::new(heap, code)?)?;
    }
    Ok(servers)
}

// Laying out a code.
ghost use Rattle.std.specs.Prelude.{◌≡◌, ℕ, ◌<◌, ◌≤◌, ⊤, Decides, MatchResult};
ghost use Rattle.terms.specs.Answers.{Answered};
ghost use Rattle.terms.specs.Items.{items};
ghost use Rattle.terms.specs.Limits.{max_servers, max_objects};
ghost use Rattle.code.specs.Layout.{coding, Accepted, AllRecovered, Refused, size_refusal, is_table};
ghost use Rattle.code.specs.Meaning.{meaning};
ghost use Rattle.code.specs.Recovery.{Recovers};
ghost use Rattle.terms.specs.Sets.{member};

use super::Code;
use crate::code::values::all_elements;
use field::interface::Field;
use terms::bounded::Bounded;
use terms::limits::{MAX_CELLS, MAX_OBJECTS, MAX_SERVERS, MIN_CELLS, MIN_OBJECTS, MIN_SERVERS};
use terms::refusal::Refusal;
use terms::servers::ServerSet;

impl<F: Field + Copy> Code<F> {
    // The code of a table that has a row of coefficients for each server, one row after the other.
    pub fn new(
        field: F,
        servers: usize,
        objects: usize,
        cells: usize,
        table: &[u8],
    ) -> Result<Code<F>, Refusal>
        ensures accepted_or_refused { MatchResult result (λ c. (meaning F.arithmetic c ≡ coding F.arithmetic servers objects cells table.now) × Accepted (coding F.arithmetic servers objects cells table.now)) (λ e. Refused F.arithmetic.size servers objects cells table.now (coding F.arithmetic servers objects cells table.now) e) }
    {
        check_sizes::<F>(servers, objects, cells, table)?;
        let table = Bounded::from_slice(0, table).ok_or(Refusal::NoTable)?;
        let code = Code {
            field,
            servers,
            objects,
            cells,
            table,
        };
        if code.all_recovered() {
            Ok(code)
        } else {
            Err(Refusal::ObjectNotRecovered)
        }
    }

    // Whether all servers together recover every object.
    fn all_recovered(&self) -> bool
        ensures { Decides result (AllRecovered (meaning F.arithmetic self.now)) }
    {
        let everyone = ServerSet::full();
        (0..self.objects).all(
            |x| -> bool
                requires { x < self.now.objects }
                ensures { Decides result (Recovers (meaning F.arithmetic self.entry.now) (member everyone) x) }
            { self.decides(&everyone, x) },
        )
    }
}

// The first bound that the sizes or the table break refuses them.
fn check_sizes<F: Field>(
    servers: usize,
    objects: usize,
    cells: usize,
    table: &[u8],
) -> Result<(), Refusal>
    ensures { Answered (size_refusal F.arithmetic.size servers objects cells table.now) (λ _. ⊤) result }
{
    if !(MIN_SERVERS..=MAX_SERVERS).contains(&servers) {
        return Err(Refusal::ServersOutOfBounds);
    }
    if !(MIN_OBJECTS..=MAX_OBJECTS).contains(&objects) {
        return Err(Refusal::ObjectsOutOfBounds);
    }
    if !(MIN_CELLS..=MAX_CELLS).contains(&cells) {
        return Err(Refusal::CellsOutOfBounds);
    }
    if !is_table::<F>(servers, objects, table) {
        return Err(Refusal::NoTable);
    }
    Ok(())
}

// Whether the table has a row of elements for each server.
fn is_table<F: Field>(servers: usize, objects: usize, table: &[u8]) -> bool
    requires few { servers ≤ max_servers }
    requires narrow { objects ≤ max_objects }
    ensures { result ≡ is_table F.arithmetic.size servers objects table.now }
{
    table.len() == servers * objects && all_elements::<F>(table)
}

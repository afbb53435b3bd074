ghost use Rattle.std.specs.Prelude.{◌≡◌, ⊤};
ghost use Rattle.terms.specs.Answers.{Answered};
ghost use Rattle.carrier.specs.Laid.{Laid, layout_refusal};

use super::{Blocks, NotLaid};
use crate::place::Place;
use terms::limits::{MAX_LANES, MAX_PLACES, MAX_SERVERS, MIN_PLACES, MIN_SERVERS};
use terms::refusal::Refusal;

impl<P: Place> Blocks<P> {
    // A carrier with empty lanes over the memory.
    pub fn new(n: usize, p: usize, memory: Vec<P>) -> Result<Blocks<P>, NotLaid<P>>
        ensures laid { Laid P.Place.held n p memory result }
    {
        match check_layout(n, p, memory.len()) {
            Ok(()) => Ok(Blocks {
                n,
                p,
                memory,
                used: [0; MAX_LANES],
            }),
            Err(refusal) => Err(NotLaid { refusal, memory }),
        }
    }

    // Takes the carrier apart, and gives the memory back.
    pub fn into_memory(self) -> Vec<P>
        ensures given_back { result ≡ self.memory }
    {
        let Blocks {
            n: _,
            p: _,
            memory,
            used: _,
        } = self;
        memory
    }
}

// Refuses a carrier of n servers, with p places to a lane, that cannot be laid over so many places in all.
fn check_layout(n: usize, p: usize, size: usize) -> Result<(), Refusal>
    ensures answer { Answered (layout_refusal n p size) (λ _. ⊤) result }
{
    if !(MIN_SERVERS..=MAX_SERVERS).contains(&n) {
        return Err(Refusal::ServersOutOfBounds);
    }
    if !(MIN_PLACES..=MAX_PLACES).contains(&p) || size < n * (n - 1) * p {
        return Err(Refusal::NoMemory);
    }
    Ok(())
}

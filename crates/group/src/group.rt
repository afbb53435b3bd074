// A group of servers over one code.
ghost use Rattle.std.specs.Prelude.{◌≡◌, vec_len};

use code::code::Code;
use std::alloc::AllocError;
use std::error::Error;
use std::fmt;
use teller::teller::Teller;
use terms::refusal::Refusal;

pub mod layout;
pub mod lookups;
pub mod sizes;

#[derive(Drop)]
pub struct Group<F: Copy> {
    pub code: Code<F>,
    pub servers: Vec<Teller>,
    ghost server_each: { vec_len servers ≡ code.servers },
}

// Why there is no group: its code is refused, or there is no memory for the servers' tables.
#[derive(Clone, Copy, PartialEq, Eq, Debug)]
pub enum NotMade {
    Refused(Refusal),
    NoMemory,
}

impl From<Refusal> for NotMade {
    ghost use Rattle.group.specs.declared.group.NotMade.TheVariants.{Refused};

    ghost from_gives = { λ refusal why. why ≡ Refused refusal };

    fn from(refusal: Refusal) -> NotMade {
        NotMade::Refused(refusal)
    }
}

impl From<AllocError> for NotMade {
    ghost use Rattle.group.specs.declared.group.NotMade.TheVariants.{NoMemory};

    ghost from_gives = { λ _ why. why ≡ NoMemory };

    fn from(_: AllocError) -> NotMade {
        NotMade::NoMemory
    }
}

impl fmt::Display for NotMade {
    fn fmt<W: fmt::Write>(&self, f: &mut fmt::Formatter<W>) -> fmt::Result {
        match self {
            Self::Refused(refusal) => write!(f, "{refusal}"),
            Self::NoMemory => write!(f, "no memory for the servers' tables"),
        }
    }
}

impl Error for NotMade {}

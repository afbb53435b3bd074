// Sets of servers.
ghost use Rattle.std.specs.Prelude.{◌≡◌, length};
ghost use Rattle.terms.specs.Limits.{max_servers};

use crate::limits::MAX_SERVERS;

pub mod methods;

// The members, by the server's number.
#[derive(Clone, Copy)]
pub struct ServerSet {
    members: [bool; MAX_SERVERS],
    ghost whole: { length members ≡ max_servers },
}

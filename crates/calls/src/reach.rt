// Whether a call reaches its server, and has its object.
ghost use Rattle.std.specs.Prelude.{◌≡◌, ◌<◌, ◌≤◌, OnOk, nat_le};
ghost use Rattle.terms.specs.Answers.{Answered};
ghost use Rattle.group.specs.States.{layout};
ghost use Rattle.calls.specs.Refusing.{beside, server_why, object_why};

use carrier::lanes::Carrier;
use field::interface::Field;
use group::group::Group;
use reads::numbers::{ObjectNumber, ServerNumber};
use terms::refusal::Refusal;

// The server and the object that a call is about.
#[derive(Clone, Copy)]
pub(crate) struct Aim {
    pub(crate) server: ServerNumber,
    pub(crate) object: ObjectNumber,
}

// The server, if the group has it and the carrier has all servers of the group.
pub(crate) fn reach<F: Field + Copy, C: Carrier>(
    group: &Group<F>,
    carrier: &C,
    server: usize,
) -> Result<ServerNumber, Refusal>
    ensures answer { Answered (beside (nat_le group.now.code.servers (C.n carrier.now)) (server_why (layout F.arithmetic group.now (C.p carrier.now)) server)) (λ k. k.number ≡ server) result }
    ensures within { OnOk result (server < group.now.code.servers) }
    ensures carried { OnOk result (group.now.code.servers ≤ C.n carrier.now) }
{
    if carrier.servers() < group.code.servers() {
        return Err(Refusal::NoSuchServer);
    }
    let servers = group.code.servers();
    ServerNumber::new(server)
        .filter(|k| k.number < servers)
        .ok_or(Refusal::NoSuchServer)
}

// The server and the object, if the group has both too.
pub(crate) fn take_aim<F: Field + Copy, C: Carrier>(
    group: &Group<F>,
    carrier: &C,
    server: usize,
    object: usize,
) -> Result<Aim, Refusal>
    ensures answer { Answered (beside (nat_le group.now.code.servers (C.n carrier.now)) (object_why (layout F.arithmetic group.now (C.p carrier.now)) server object)) (λ a. (a.server.number ≡ server) × (a.object.number ≡ object)) result }
    ensures within { OnOk result (server < group.now.code.servers) }
    ensures carried { OnOk result (group.now.code.servers ≤ C.n carrier.now) }
{
    let server = reach(group, carrier, server)?;
    let objects = group.code.objects();
    let object = ObjectNumber::new(object)
        .filter(|x| x.number < objects)
        .ok_or(Refusal::NoSuchObject)?;
    Ok(Aim { server, object })
}

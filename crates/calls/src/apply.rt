// Apply: the lowest waiting write that is ready.
ghost use Rattle.std.specs.Prelude.{◌≡◌, nat_le};
ghost use Rattle.rules.specs.Turns.{Apply};
ghost use Rattle.group.specs.States.{state, layout};
ghost use Rattle.calls.specs.Told.{apply_told};
ghost use Rattle.calls.specs.Took.{Took};

use crate::reach::reach;
use carrier::lanes::Carrier;
use field::interface::Field;
use group::group::Group;
use message::tag::Tag;
use terms::refusal::Refusal;

// Applies the lowest waiting write of the server that is ready, and tells its tag, if there is one.
pub fn apply<F: Field + Copy, C: Carrier>(
    group: &mut Group<F>,
    carrier: &C,
    server: usize,
) -> Result<Option<Tag>, Refusal>
    ensures step { Took (layout F.arithmetic group.old (C.p carrier.now)) (nat_le group.old.code.servers (C.n carrier.now)) (state group.old (C.lanes carrier.now)) (Apply server) (apply_told result) (state group.new (C.lanes carrier.now)) }
    ensures same_code { group.new.code ≡ group.old.code }
{
    reach(group, carrier, server)?;
    let servers = group.code.servers();
    group.servers[server].apply(servers)
}

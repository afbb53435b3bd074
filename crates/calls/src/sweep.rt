// Sweep: what a server no longer needs of its history.
ghost use Rattle.std.specs.Prelude.{◌≡◌, nat_le};
ghost use Rattle.rules.specs.Turns.{Sweep};
ghost use Rattle.group.specs.States.{state, layout};
ghost use Rattle.calls.specs.Told.{sweep_told};
ghost use Rattle.calls.specs.Took.{Took};

use crate::reach::take_aim;
use carrier::lanes::Carrier;
use field::interface::Field;
use group::group::Group;
use terms::refusal::Refusal;

// Forgets what the server no longer needs of the object, and tells how many entries those were.
pub fn sweep<F: Field + Copy, C: Carrier>(
    group: &mut Group<F>,
    carrier: &C,
    server: usize,
    object: usize,
) -> Result<usize, Refusal>
    ensures step { Took (layout F.arithmetic group.old (C.p carrier.now)) (nat_le group.old.code.servers (C.n carrier.now)) (state group.old (C.lanes carrier.now)) (Sweep server object) (sweep_told result) (state group.new (C.lanes carrier.now)) }
    ensures same_code { group.new.code ≡ group.old.code }
{
    let aim = take_aim(group, carrier, server, object)?;
    let code = group.code;
    Ok(group.servers[server].sweep(&code, aim.object))
}

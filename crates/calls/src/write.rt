// Write: a value of an object, by one server.
ghost use Rattle.std.specs.Prelude.{◌≡◌, nat_le};
ghost use Rattle.rules.specs.Turns.{Write};
ghost use Rattle.group.specs.States.{state, layout};
ghost use Rattle.calls.specs.Told.{write_told};
ghost use Rattle.calls.specs.Took.{Took};

use crate::own_write::own_write;
use crate::post::Sender;
use crate::reach::take_aim;
use crate::values::value_of;
use carrier::lanes::Carrier;
use field::interface::Field;
use group::group::Group;
use message::tag::Tag;
use terms::refusal::Refusal;

// A value of the object, written by the server, which tells all others of it; the tag of the write is told.
pub fn write<F: Field + Copy, C: Carrier>(
    group: &mut Group<F>,
    carrier: &mut C,
    server: usize,
    object: usize,
    value: &[u8],
) -> Result<Tag, Refusal>
    ensures step { Took (layout F.arithmetic group.old (C.p carrier.old)) (nat_le group.old.code.servers (C.n carrier.old)) (state group.old (C.lanes carrier.old)) (Write server object value.now) (write_told result) (state group.new (C.lanes carrier.new)) }
    ensures same_code { group.new.code ≡ group.old.code }
    ensures same_servers { C.n carrier.new ≡ C.n carrier.old }
    ensures same_places { C.p carrier.new ≡ C.p carrier.old }
{
    let aim = take_aim(group, carrier, server, object)?;
    let value = value_of(group, value)?;
    let code = group.code;
    let sender = Sender {
        from: server,
        servers: code.servers(),
    };
    let lanes_free = sender.all_free(carrier);
    let written = own_write(&mut group.servers[server], &code, aim, value, lanes_free)?;
    sender.tell_all(carrier, written);
    Ok(written.answer)
}

// A write of a server's own, and the notice of it.
ghost use Rattle.std.specs.Prelude.{◌≡◌, ℕ};
ghost use Rattle.terms.specs.Items.{items};
ghost use Rattle.code.specs.Meaning.{meaning};
ghost use Rattle.server.specs.Servers.{server};
ghost use Rattle.server.specs.Steps.{laid};
ghost use Rattle.calls.specs.Writing.{write_local, write_said};

use crate::reach::Aim;
use code::code::Code;
use field::interface::Field;
use group::group::lookups::clock_of;
use message::kinds::Message;
use message::tag::Tag;
use steps::turns::Turn;
use teller::teller::Teller;
use teller::values::Value;
use terms::refusal::Refusal;

// The server writes a value of the object itself: the answer is the tag of the write, and the news its notice for every other server.
pub(crate) fn own_write<F: Field + Copy>(
    p: &mut Teller,
    code: &Code<F>,
    aim: Aim,
    value: Value,
    lanes_free: bool,
) -> Result<Turn<Tag>, Refusal>
    ensures step { (places : ℕ) → write_said result (server p.new.server) ≡ write_local (laid (meaning F.arithmetic code.now) places) (server p.old.server) aim.server.number aim.object.number (items value.cells) lanes_free }
{
    p.server.check_write(aim.server)?;
    if !lanes_free {
        return Err(Refusal::LaneFull);
    }
    let tag = p.write(aim.server, aim.object.number, value)?;
    let notice = Message::WriteNotice {
        object: aim.object.number as u32,
        value: value.cells,
        height: tag.height,
        clock: clock_of(&p.server, code),
    };
    Ok(Turn {
        answer: tag,
        news: Some(notice),
    })
}

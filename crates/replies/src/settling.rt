// A reply answers its read.
ghost use Rattle.std.specs.Prelude.{◌≡◌, true, MatchOption, Some, None};
ghost use Rattle.terms.specs.Items.{items};
ghost use Rattle.reads.specs.Readings.{asking as asking_of};
ghost use Rattle.rules.specs.Delivering.{open_place, internal_answer};
ghost use Rattle.rules.specs.State.{Layout, Open};
ghost use Rattle.server.specs.Servers.{server};
ghost use Rattle.server.specs.Steps.{has_room};
ghost use Rattle.replies.specs.Receiving.{settle_local, plain_from};
ghost use Rattle.replies.specs.Told.{reply_said};

use crate::turns::Delivered;
use history::history::Entry;
use reads::numbers::ReadPlace;
use reads::reads::{Event, Read};
use teller::teller::Teller;
use teller::values::{OpenRead, Value};
use terms::limits::MAX_CLIENT_READS;
use terms::refusal::Refusal;

// The open read at a place is answered by a value: a client's is kept answered, an internal one's value enters the history.
pub(crate) fn settle(
    p: &mut Teller,
    i: ReadPlace,
    read: OpenRead,
    value: Value,
) -> Result<Delivered, Refusal>
    ensures { (l : Layout) → reply_said result (server p.new.server) ≡ settle_local l (server p.old.server) i.number (asking_of read.asking) (items value.cells) }
{
    if i.number < MAX_CLIENT_READS {
        let answered = Read::Open(read.asking).next(Event::Replied(value.cells));
        p.put_read(i, answered);
        return Ok(Delivered::Answered);
    }
    if !p.server.history().has_room() {
        return Err(Refusal::HistoryFull);
    }
    enter_answer(p, i, read, value);
    Ok(Delivered::Answered)
}

// The value that answers an internal read enters the history, and its place is free.
fn enter_answer(p: &mut Teller, i: ReadPlace, read: OpenRead, value: Value)
    requires { has_room (server p.old.server) ≡ true }
    ensures { (l : Layout) → server p.new.server ≡ internal_answer l (server p.old.server) i.number (asking_of read.asking) (items value.cells) }
{
    let asking = read.asking;
    let tag = asking.tag_of(asking.object);
    p.enter(Entry {
        object: asking.object,
        tag,
        value: value.cells,
    });
    p.put_read(i, Read::Free);
}

// The open read with this number, and its place.
pub(crate) fn open_read(p: &Teller, number: u32) -> Option<(ReadPlace, OpenRead)>
    ensures { MatchOption result (open_place (server p.now.server) number ≡ None) (λ found. (open_place (server p.now.server) number ≡ Some found.0.number) × ((server p.now.server).reads found.0.number ≡ Open (asking_of found.1.asking))) }
{
    let i = p.server.open_place(number)?;
    match p.server.reads().at(i.number) {
        Read::Open(asking) => Some((i, OpenRead { asking })),
        _ => None,
    }
}

// A plain reply to the read with this number.
pub(crate) fn take_plain(p: &mut Teller, number: u32, value: Value) -> Result<Delivered, Refusal>
    ensures { (l : Layout) → reply_said result (server p.new.server) ≡ plain_from l (server p.old.server) (items value.cells) (open_place (server p.old.server) number) }
{
    let Some((i, read)) = open_read(p, number) else {
        return Ok(Delivered::NotOpen);
    };
    settle(p, i, read, value)
}

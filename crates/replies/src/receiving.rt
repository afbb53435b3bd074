// A coded reply is taken.
ghost use Rattle.std.specs.Prelude.{◌≡◌};
ghost use Rattle.terms.specs.Items.{items};
ghost use Rattle.code.specs.Meaning.{meaning};
ghost use Rattle.reads.specs.Readings.{asking as asking_of};
ghost use Rattle.server.specs.Servers.{server};
ghost use Rattle.replies.specs.Taking.{SymbolTaken, CodedTaken};
ghost use Rattle.replies.specs.Told.{reply_said};

use crate::mending::{decoded, in_hand};
use crate::seats::Seat;
use crate::settling::{open_read, settle};
use crate::turns::Delivered;
use field::interface::Field;
use message::kinds::Tags;
use reads::numbers::ReadPlace;
use reads::reads::Read;
use teller::teller::Teller;
use teller::values::{OpenRead, Value};
use terms::bounded::Cells;
use terms::refusal::Refusal;

impl<F: Field + Copy> Seat<'_, F> {
    // A symbol of the server is in hand: the read is answered if the symbols in hand recover its object, and waits on if they do not.
    fn take_symbol(
        &self,
        p: &mut Teller,
        i: ReadPlace,
        read: OpenRead,
        symbol: Cells,
        stated: &Tags,
    ) -> Result<Delivered, Refusal>
        ensures { SymbolTaken (meaning F.arithmetic self.now.code.now) (server p.old.server) self.now.server.number i.number (asking_of read.asking) (items symbol) (items stated.now) (reply_said result (server p.new.server)) }
    {
        let Some(symbol) = self.mended(&p.server, &read.asking, symbol, stated) else {
            return Ok(Delivered::Unusable);
        };
        let holding = in_hand(&read, self.server, symbol);
        let Some(value) = decoded(self.code, &holding.asking) else {
            p.put_read(i, Read::Open(holding.asking));
            return Ok(Delivered::InHand);
        };
        settle(p, i, holding, Value { cells: value })
    }

    // A coded reply of the server to the read with this number.
    pub(crate) fn take_coded(
        &self,
        p: &mut Teller,
        number: u32,
        symbol: Cells,
        stated: &Tags,
    ) -> Result<Delivered, Refusal>
        ensures { CodedTaken (meaning F.arithmetic self.now.code.now) (server p.old.server) self.now.server.number number (items symbol) (items stated.now) (reply_said result (server p.new.server)) }
    {
        let Some((i, read)) = open_read(p, number) else {
            return Ok(Delivered::NotOpen);
        };
        self.take_symbol(p, i, read, symbol, stated)
    }
}

// A coded reply, made to fit its read, and what the symbols in hand then tell.
ghost use Rattle.std.specs.Prelude.{◌≡◌, ℕ, ◌≤◌, true, not, ◌&&◌, List, MatchOption, nat_lt, slice_index_or};
ghost use Rattle.std.specs.Option.{option_map};
ghost use Rattle.terms.specs.Items.{items};
ghost use Rattle.terms.specs.Sets.{member};
ghost use Rattle.message.specs.Tags.{zero_tag, same};
ghost use Rattle.code.specs.Codings.{contains};
ghost use Rattle.code.specs.Meaning.{meaning};
ghost use Rattle.code.specs.Recovery.{Recovers, Decoded};
ghost use Rattle.reads.specs.Readings.{asking as asking_of};
ghost use Rattle.rules.specs.Delivering.{mended_at, mended};
ghost use Rattle.rules.specs.Histories.{holds};
ghost use Rattle.rules.specs.Updates.{in_hand};
ghost use Rattle.rules.specs.Words.{upd};
ghost use Rattle.server.specs.Servers.{server};
ghost use Rattle.server.specs.Steps.{laid};

use crate::replying::turned;
use crate::seats::Seat;
use code::code::Code;
use field::interface::Field;
use message::kinds::Tags;
use message::tag::Tag;
use reads::numbers::ServerNumber;
use reads::reads::Asking;
use server::server::Server;
use std::marker::PhantomData;
use steps::shares::Share;
use teller::values::OpenRead;
use terms::bounded::Cells;
use terms::servers::ServerSet;

// Whether the sender contains the object and has stated another tag of it than the read's.
fn differs<F: Field + Copy>(share: &Share<F>, asking: &Asking, stated: Tag) -> bool
    ensures { result ≡ (contains (meaning F.arithmetic share.now.code.now) share.now.server.number share.now.object.number && not (same stated ((asking_of asking.now).tags share.now.object.number))) }
{
    share.is_contained() && stated != asking.tag_of(share.object.number)
}

// Whether the values of the object y under both tags are held.
fn holds_both(p: &Server, y: usize, s: Tag, t: Tag) -> bool
    ensures { result ≡ (holds (server p.now).history y s && holds (server p.now).history y t) }
{
    p.history().holds(y, s) && p.history().holds(y, t)
}

// The symbol as one of the read's tag of the object, if that can be had.
fn mended_at<F: Field + Copy>(
    p: &Server,
    share: &Share<F>,
    asking: &Asking,
    stated: Tag,
    symbol: Cells,
) -> Option<Cells>
    ensures { (places : ℕ) (ts : List Tag) → stated ≡ slice_index_or ts share.now.object.number zero_tag → option_map items result ≡ mended_at (laid (meaning F.arithmetic share.now.code.now) places) (server p.now) share.now.server.number (asking_of asking.now) ts share.now.object.number (items symbol) }
{
    if !differs(share, asking, stated) {
        return Some(symbol);
    }
    let y = share.object.number;
    let wanted = asking.tag_of(y);
    if !holds_both(p, y, stated, wanted) {
        return None;
    }
    Some(turned(p, share, stated, wanted, &symbol).cells)
}

impl<F: Field + Copy> Seat<'_, F> {
    // A symbol of the server as one of the read's tags, if that can be had.
    pub(crate) fn mended(
        &self,
        p: &Server,
        asking: &Asking,
        symbol: Cells,
        stated: &Tags,
    ) -> Option<Cells>
        ensures { (places : ℕ) → option_map items result ≡ mended (laid (meaning F.arithmetic self.now.code.now) places) (server p.now) self.now.server.number (asking_of asking.now) (items symbol) (items stated.now) self.now.code.now.objects }
    {
        let mut symbol = symbol;
        for y in 0..self.code.objects() {
            let tag = stated.get_or(y, Tag::zero());
            symbol = mended_at(p, &self.share(y), asking, tag, symbol)?;
        }
        Some(symbol)
    }
}

// The read with the sender's symbol in hand.
pub(crate) fn in_hand(read: &OpenRead, from: ServerNumber, symbol: Cells) -> OpenRead
    ensures { asking_of result.asking ≡ in_hand (asking_of read.now.asking) from.number (items symbol) }
{
    let mut asking = read.asking;
    asking.hand = with(asking.hand, from);
    asking.symbols[from.number] = symbol;
    OpenRead { asking }
}

// The set and one server more.
fn with(set: ServerSet, s: ServerNumber) -> ServerSet
    ensures { member result ≡ upd (member set) s.number true }
{
    set.with(s.number).unwrap_or(set)
}

// The servers of a set that are below n.
fn below(set: ServerSet, n: usize) -> ServerSet
    requires { n ≤ 6 }
    ensures { (s : ℕ) → member result s ≡ (nat_lt s n && member set s) }
{
    let mut known = ServerSet::empty();
    for s in 0..n {
        if set.has(s) {
            let member = ServerNumber {
                number: s,
                of: PhantomData,
            };
            known = with(known, member);
        }
    }
    known
}

// The value of the read's object, from the symbols in hand, if they recover it.
pub(crate) fn decoded<F: Field + Copy>(code: &Code<F>, asking: &Asking) -> Option<Cells>
    ensures { MatchOption result (Recovers (meaning F.arithmetic code.now) (asking_of asking.now).hand asking.now.object → ⊥) (λ v. Recovers (meaning F.arithmetic code.now) (asking_of asking.now).hand asking.now.object × Decoded (meaning F.arithmetic code.now) (asking_of asking.now).hand (asking_of asking.now).symbols asking.now.object (items v)) }
{
    let known = below(asking.hand, code.servers());
    code.decode_any(&known, &asking.symbols, asking.object)
        .unwrap_or(None)
}

// What a server replies to a question.
ghost use Rattle.std.specs.Prelude.{◌≡◌, ℕ, ◌<◌, true, if◌then◌else◌, Some, slice_index_or};
ghost use Rattle.terms.specs.Items.{items};
ghost use Rattle.terms.specs.Lists.{listed};
ghost use Rattle.message.specs.Tags.{zero_tag};
ghost use Rattle.code.specs.Meaning.{meaning};
ghost use Rattle.message.specs.Meanings.{question, meaning as meaning_of};
ghost use Rattle.message.specs.Ranges.{in_range};
ghost use Rattle.rules.specs.Delivering.{exchanges, stated, restated, reply};
ghost use Rattle.rules.specs.Encoding.{turned};
ghost use Rattle.rules.specs.Histories.{holds};
ghost use Rattle.std.specs.Option.{option_map};
ghost use Rattle.replies.specs.Told.{delivered_number};
ghost use Rattle.server.specs.Servers.{server};
ghost use Rattle.server.specs.Steps.{laid};

use crate::seats::Seat;
use crate::turns::{DeliverTurn, Delivered};
use field::interface::Field;
use message::kinds::{Message, Tags};
use message::tag::Tag;
use server::server::Server;
use steps::shares::Share;
use steps::turns::Turn;
use teller::teller::Teller;
use teller::values::Value;
use terms::bounded::Cells;

// Whether the server, asked for a tag of the object, exchanges its own value.
fn exchanges<F: Field + Copy>(p: &Server, share: &Share<F>, asked: Tag) -> bool
    ensures { (places : ℕ) → result ≡ exchanges (laid (meaning F.arithmetic share.now.code.now) places) share.now.server.number (server p.now) share.now.object.number asked }
{
    let y = share.object.number;
    let own = p.own_tag(y);
    share.is_contained() && asked != own && p.history().holds(y, own)
}

// The tag that it states of the object.
fn stated<F: Field + Copy>(p: &Server, share: &Share<F>, asked: Tag) -> Tag
    ensures { (places : ℕ) → result ≡ stated (laid (meaning F.arithmetic share.now.code.now) places) share.now.server.number (server p.now) share.now.object.number asked }
{
    let y = share.object.number;
    if !exchanges(p, share, asked) {
        return p.own_tag(y);
    }
    if p.history().holds(y, asked) {
        asked
    } else {
        Tag::zero()
    }
}

// A symbol of the server, where its value of the object under one tag gives way to that under another.
pub(crate) fn turned<F: Field + Copy>(
    p: &Server,
    share: &Share<F>,
    from: Tag,
    to: Tag,
    symbol: &Cells,
) -> Value
    ensures symbol { (places : ℕ) → items result.cells ≡ turned (laid (meaning F.arithmetic share.now.code.now) places) share.now.server.number (server p.now) share.now.object.number from to (items symbol.now) }
{
    let y = share.object.number;
    let old = p.history().value_under(share.code, y, from);
    let new = p.history().value_under(share.code, y, to);
    share.exchanged(symbol, &old, &new)
}

// The symbol, where the object has the value that is stated of it.
fn restated_at<F: Field + Copy>(p: &Server, share: &Share<F>, asked: Tag, symbol: Value) -> Value
    ensures symbol { (places : ℕ) → items result.cells ≡ (if exchanges (laid (meaning F.arithmetic share.now.code.now) places) share.now.server.number (server p.now) share.now.object.number asked then turned (laid (meaning F.arithmetic share.now.code.now) places) share.now.server.number (server p.now) share.now.object.number ((server p.now).own share.now.object.number) (stated (laid (meaning F.arithmetic share.now.code.now) places) share.now.server.number (server p.now) share.now.object.number asked) (items symbol.cells) else items symbol.cells) }
{
    if !exchanges(p, share, asked) {
        return symbol;
    }
    let own = p.own_tag(share.object.number);
    let to = stated(p, share, asked);
    turned(p, share, own, to, &symbol.cells)
}

impl<F: Field + Copy> Seat<'_, F> {
    // The symbol, where each object has the value that is stated of it.
    fn restated(&self, p: &Teller, asked: &Tags) -> Value
        ensures symbol { (places : ℕ) → items result.cells ≡ restated (laid (meaning F.arithmetic self.now.code.now) places) self.now.server.number (server p.now.server) (items asked.now) self.now.code.now.objects }
    {
        let mut symbol = p.symbol();
        for y in 0..self.code.objects() {
            symbol = restated_at(
                &p.server,
                &self.share(y),
                asked.get_or(y, Tag::zero()),
                symbol,
            );
        }
        symbol
    }

    // The tag that it states of the object y, asked for these tags.
    fn stated_of(&self, p: &Server, asked: &Tags, y: usize) -> Tag
        requires { y < self.now.code.now.objects }
        ensures { (places : ℕ) → result ≡ stated (laid (meaning F.arithmetic self.now.code.now) places) self.now.server.number (server p.now) y (slice_index_or (items asked.now) y zero_tag) }
    {
        stated(p, &self.share(y), asked.get_or(y, Tag::zero()))
    }

    // The tags that it states.
    fn stated_tags(&self, p: &Server, asked: &Tags) -> Tags
        ensures { (places : ℕ) → items result ≡ listed self.now.code.now.objects (λ y. stated (laid (meaning F.arithmetic self.now.code.now) places) self.now.server.number (server p.now) y (slice_index_or (items asked.now) y zero_tag)) }
    {
        Tags::from_fn(Tag::zero(), self.code.objects(), |y| {
            self.stated_of(p, asked, y)
        })
    }

    // The reply to a question: the value under the asked tag, if it is held, and else a symbol with the tags that it is made of.
    pub(crate) fn reply(&self, p: &Teller, read: u32, object: u32, asked: &Tags) -> DeliverTurn
        requires { in_range (question read object (items asked.now)) ≡ true }
        ensures outcome { delivered_number result.answer ≡ (if holds (server p.now.server).history object (slice_index_or (items asked.now) object zero_tag) then 1 else 2) }
        ensures reply { (places : ℕ) → option_map meaning_of result.news ≡ Some (reply (laid (meaning F.arithmetic self.now.code.now) places) self.now.server.number (server p.now.server) read object (items asked.now)) }
    {
        let x = object as usize;
        let tag = asked.get_or(x, Tag::zero());
        if p.server.history().holds(x, tag) {
            let value = p.server.history().value_under(self.code, x, tag);
            return Turn {
                answer: Delivered::RepliedPlain,
                news: Some(Message::PlainReply { read, value }),
            };
        }
        let symbol = self.restated(p, asked).cells;
        let stated = self.stated_tags(&p.server, asked);
        Turn {
            answer: Delivered::RepliedCoded,
            news: Some(Message::CodedReply {
                read,
                symbol,
                stated,
            }),
        }
    }
}

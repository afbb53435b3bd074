// What a server no longer needs of its history.
ghost use Rattle.std.specs.Prelude.{◌≡◌, ℕ, ◌-◌, ◌<◌, ◌≤◌, length, take, if◌then◌else◌, slice_index_or};
ghost use Rattle.std.specs.List.{list_all};
ghost use Rattle.terms.specs.Limits.{max_servers};
ghost use Rattle.message.specs.Tags.{zero_tag, same};
ghost use Rattle.code.specs.Meaning.{meaning};
ghost use Rattle.rules.specs.Encoding.{lowest, floor, swept};
ghost use Rattle.rules.specs.Histories.{earlier, highest_held};
ghost use Rattle.rules.specs.Updates.{sifted};
ghost use Rattle.terms.specs.Lists.{every};
ghost use Rattle.server.specs.Servers.{server};
ghost use Rattle.server.specs.Steps.{laid, settled_among, without_below, without_own};

use super::{Server, Told};
use code::code::Code;
use field::interface::Field;
use message::tag::Tag;
use reads::numbers::ObjectNumber;

// The lowest of the tags; there is at least one.
fn lowest(told: &[Tag]) -> Tag
    ensures { result ≡ lowest (length told.now) (λ j. slice_index_or told.now j zero_tag) }
{
    let mut floor = told.first().copied().unwrap_or(Tag::zero());
    for tag in told {
        floor = earlier(*tag, floor);
    }
    floor
}

fn earlier(s: Tag, t: Tag) -> Tag
    ensures { result ≡ earlier s t }
{
    if s < t { s } else { t }
}

impl Told {
    // The tags of the first n servers.
    fn first(&self, n: usize) -> &[Tag]
        requires { n ≤ max_servers }
        ensures { result.now ≡ take n self.now.tags }
    {
        &self.tags[..n]
    }

    // Whether the first n servers have all told this tag.
    fn is_told_by(&self, n: usize, tag: Tag) -> bool
        requires { n ≤ max_servers }
        ensures { result ≡ list_all (λ t. same t tag) (take n self.now.tags) }
    {
        self.first(n).iter().all(|told| *told == tag)
    }
}

impl Server {
    // The lowest tag of the object that any of the first n servers has told.
    fn floor(&self, n: usize, object: ObjectNumber) -> Tag
        requires some { 1 ≤ n }
        requires few { n ≤ max_servers }
        ensures { result ≡ lowest n ((server self.now).told object.number) }
    {
        let row = &self.told[object.number];
        lowest(row.first(n))
    }

    // Whether the first n servers have all told the own tag of the object.
    fn all_told_own(&self, n: usize, object: ObjectNumber) -> bool
        requires { n ≤ max_servers }
        ensures { result ≡ every n (λ j. same ((server self.now).told object.number j) ((server self.now).own object.number)) }
    {
        let own = self.own_tag(object.number);
        self.told[object.number].is_told_by(n, own)
    }

    // Whether all have told the own tag of the object, and no entry is higher.
    fn is_settled(&self, n: usize, object: ObjectNumber) -> bool
        requires { n ≤ max_servers }
        ensures { result ≡ settled_among n (server self.now) object.number }
    {
        let x = object.number;
        self.all_told_own(n, object) && self.own_tag(x) >= self.history.highest(x)
    }

    // Forgets what no server needs of the object any more, and tells how many entries those were.
    pub fn sweep<F: Field + Copy>(&mut self, code: &Code<F>, object: ObjectNumber) -> usize
        ensures removed { (places : ℕ) → result ≡ length (server self.old).history - length (swept (laid (meaning F.arithmetic code.now) places) (server self.old) object.number) }
        ensures after { (places : ℕ) → server self.new ≡ sifted (server self.old) (swept (laid (meaning F.arithmetic code.now) places) (server self.old) object.number) }
    {
        let before = self.history.len();
        let n = code.servers();
        let floor = self.floor(n, object);
        self.forget_below(object.number, floor);
        self.forget_settled(n, object);
        before.saturating_sub(self.history.len())
    }

    // Forgets the entries of the object below the floor that no open read wants.
    fn forget_below(&mut self, object: usize, floor: Tag)
        ensures { server self.new ≡ without_below (server self.old) object floor }
    {
        self.history.forget_below(object, floor, &self.reads);
    }

    // Forgets the own tag's entry of the object, if the object is settled.
    fn forget_settled(&mut self, n: usize, object: ObjectNumber)
        requires { n ≤ max_servers }
        ensures { server self.new ≡ (if settled_among n (server self.old) object.number then without_own (server self.old) object.number else server self.old) }
    {
        if self.is_settled(n, object) {
            let tag = self.own_tag(object.number);
            self.history.forget(object.number, tag);
        }
    }
}

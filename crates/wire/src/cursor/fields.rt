ghost use Rattle.std.specs.Prelude.{◌≡◌, Result, length, ◌==◌};
ghost use Rattle.std.specs.Fn.{FnOnceReturnsAt, FnOnceReturnsAtMut};
ghost use Rattle.wire.specs.declared.faults.FieldFault.{FieldFault};
ghost use Rattle.terms.specs.Items.{items};
ghost use Rattle.wire.specs.Reading.{number, tag, opaque, clock, tags, counted, zeros, Opened, Reads, itself, start, RangedBy};

use super::Cursor;
use crate::faults::{FieldFault, MessageFault};
use crate::item::Item;
use crate::mark;
use message::kinds::{Clock, Tags};
use message::tag::Tag;
use terms::bounded::{Bounded, Cells};
use terms::limits::{MARK_BYTES, MAX_CELLS, MIN_CELLS, MIN_OBJECTS, MIN_SERVERS};

impl<'a> Cursor<'a> {
    // The record that the bytes begin with, behind its mark.
    pub fn open(bytes: &'a [u8]) -> Result<Cursor<'a>, FieldFault>
        ensures opened { Opened bytes.now result }
    {
        let left = mark::body(bytes)?;
        Ok(Cursor {
            left,
            end: left.len() + MARK_BYTES,
        })
    }

    // The byte at which the next field starts.
    pub fn at(&self) -> usize
        ensures start { result ≡ start self.now.end self.now.left.now }
    {
        self.end.saturating_sub(self.left.len())
    }

    pub fn number(&mut self) -> Result<u32, FieldFault>
        ensures reads { Reads itself number self.old self.new result }
    {
        match self.left {
            [a, b, c, d, left @ ..] => {
                self.left = left;
                Ok(u32::from_be_bytes([*a, *b, *c, *d]))
            }
            _ => Err(FieldFault::TooShort { at: self.at() }),
        }
    }

    pub fn tag(&mut self) -> Result<Tag, FieldFault>
        ensures reads { Reads itself tag self.old self.new result }
    {
        if self.left.len() < Tag::SIZE {
            return Err(FieldFault::TooShort { at: self.at() });
        }
        let height = self.number()?;
        let server = self.number()?;
        Ok(Tag { height, server })
    }

    // A value or a symbol: a length, so many bytes, and padding to a multiple of 4.
    pub fn opaque(&mut self) -> Result<Cells, FieldFault>
        ensures reads { Reads items opaque self.old self.new result }
    {
        let at = self.at();
        let n = self.number()? as usize;
        let left = self.left;
        let padded = (n + 3) / 4 * 4;
        if left.len() < padded {
            return Err(FieldFault::TooShort { at });
        }
        if !(MIN_CELLS..=MAX_CELLS).contains(&n) || !zeros(&left[n..padded]) {
            return Err(FieldFault::Malformed { at });
        }
        self.left = &left[padded..];
        Bounded::from_slice(0, &left[..n]).ok_or(FieldFault::Malformed { at })
    }

    pub fn clock(&mut self) -> Result<Clock, FieldFault>
        ensures reads { Reads items clock self.old self.new result }
    {
        self.list(0, MIN_SERVERS)
    }

    pub fn tags(&mut self) -> Result<Tags, FieldFault>
        ensures reads { Reads items tags self.old self.new result }
    {
        self.list(Tag::zero(), MIN_OBJECTS)
    }

    // A count from `low` to MAX, and as many items.
    fn list<T: Item, const MAX: usize>(
        &mut self,
        fill: T,
        low: usize,
    ) -> Result<Bounded<T, MAX>, FieldFault>
        ensures reads { Reads items (counted low MAX T.Item.SIZE T.Item.item) self.old self.new result }
    {
        let at = self.at();
        let n = self.number()? as usize;
        if self.left.len() < n * T::SIZE {
            return Err(FieldFault::TooShort { at });
        }
        if !(low..=MAX).contains(&n) {
            return Err(FieldFault::Malformed { at });
        }
        let mut all = Bounded::new(fill);
        for _ in 0..n {
            let x = T::read(self)?;
            all.push(x);
        }
        Ok(all)
    }

    // A field, and then its range.
    pub fn ranged<
        T: Copy,
        R: FnOnce(&mut Cursor<'a>) -> Result<T, FieldFault>,
        P: FnOnce(&T) -> bool,
    >(&mut self, read: R, passes: P) -> Result<T, MessageFault>
        requires readable { R.IsAlwaysCallable read }
        requires testable { P.IsAlwaysCallable passes }
        ensures ranged { (field : Result T FieldFault) × FnOnceReturnsAtMut R.FnOnce read self.old field self.new × RangedBy (FnOnceReturnsAt P.FnOnce passes) (start self.old.end self.old.left.now) field result }
    {
        let at = self.at();
        let x = read(self)?;
        if !passes(&x) {
            return Err(MessageFault::OutOfRange { at });
        }
        Ok(x)
    }

    pub fn is_done(&self) -> bool
        ensures none_left { result ≡ (length self.now.left.now == 0) }
    {
        self.left.is_empty()
    }

    pub fn end(&self) -> usize
        ensures end { result ≡ self.now.end }
    {
        self.end
    }
}

fn zeros(bytes: &[u8]) -> bool
    ensures decided { result ≡ zeros bytes.now }
{
    bytes.iter().all(|b| *b == 0)
}

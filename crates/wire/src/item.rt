// An item of a list: a field of a fixed size.
ghost use Rattle.std.specs.Prelude.{◌≡◌, ℕ, ◌+◌, ◌≤◌, List, ◌++◌, length, Result};
ghost use Rattle.std.proofs.Common.{rules};
ghost use Rattle.terms.specs.Limits.{max_body_bytes};
ghost use Rattle.wire.specs.declared.faults.FieldFault.{FieldFault};
ghost use Rattle.wire.specs.Bodies.{body_so_far};
ghost use Rattle.wire.specs.Reading.{number, tag, Reads, itself};
ghost use Rattle.wire.specs.Words.{four};
ghost use Rattle.wire.specs.Writing.{tag_bytes};

use crate::body::Body;
use crate::cursor::Cursor;
use crate::faults::FieldFault;
use message::tag::Tag;

pub trait Item: Copy {
    // how many bytes it takes
    const SIZE: usize;

    ghost SIZE: { ℕ };

    // the bytes that it is written as
    ghost bytes: { Self → List ℕ };

    // what is read from bytes, and the bytes left
    ghost item: { ℕ → List ℕ → Result (Self × List ℕ) FieldFault };

    fn put(self, out: &mut Body)
        requires { length (body_so_far out.old) + length (bytes self) ≤ max_body_bytes }
        ensures added { body_so_far out.new ≡ body_so_far out.old ++ bytes self };

    fn read(c: &mut Cursor) -> Result<Self, FieldFault>
        ensures reads { Reads itself item c.old c.new result };

    ghost small: { SIZE ≤ 8 };
}

// A count of a clock.
impl Item for u32 {
    const SIZE: usize = 4;

    ghost SIZE = { 4 };

    ghost bytes = { four };

    ghost item = { number };

    fn put(self, out: &mut Body) {
        out.put_number(self);
    }

    fn read(c: &mut Cursor) -> Result<u32, FieldFault> {
        c.number()
    }

    ghost small = { Prim.search rules };
}

impl Item for Tag {
    const SIZE: usize = 8;

    ghost SIZE = { 8 };

    ghost bytes = { tag_bytes };

    ghost item = { tag };

    fn put(self, out: &mut Body) {
        out.put_tag(self);
    }

    fn read(c: &mut Cursor) -> Result<Tag, FieldFault> {
        c.tag()
    }

    ghost small = { Prim.search rules };
}

ghost use Rattle.std.specs.Prelude.{◌≡◌, ℕ, ◌+◌, ◌*◌, ◌^◌, ◌<◌, ◌≤◌, ◌++◌, length};
ghost use Rattle.terms.specs.Items.{items};
ghost use Rattle.terms.specs.Limits.{max_cells, max_body_bytes};
ghost use Rattle.wire.specs.Bodies.{body_so_far};
ghost use Rattle.wire.specs.Kinds.{kind_number};
ghost use Rattle.wire.specs.Words.{four, padded};
ghost use Rattle.wire.specs.Writing.{tag_bytes, opaque_bytes, counted_bytes};

use super::Body;
use crate::item::Item;
use crate::kind::Kind;
use message::tag::Tag;
use terms::bounded::{Bounded, Cells};

impl Body {
    // The body of a message of the kind, with no field yet.
    pub fn of(kind: Kind) -> Body
        ensures begun { body_so_far result ≡ four (kind_number kind) }
    {
        let mut out = Body {
            bytes: Bounded::new(0),
        };
        out.put_number(kind.into());
        out
    }

    pub fn as_slice(&self) -> &[u8]
        ensures shown { result.now ≡ body_so_far self.now }
    {
        self.bytes.as_slice()
    }

    fn put_bytes(&mut self, more: &[u8])
        requires { length (body_so_far self.old) + length more.now ≤ max_body_bytes }
        ensures added { body_so_far self.new ≡ body_so_far self.old ++ more.now }
    {
        self.bytes.extend_from_slice(more);
    }

    pub fn put_number(&mut self, n: u32)
        requires { length (body_so_far self.old) + 4 ≤ max_body_bytes }
        ensures added { body_so_far self.new ≡ body_so_far self.old ++ four n }
        ensures len { length (body_so_far self.new) ≡ length (body_so_far self.old) + 4 }
    {
        self.put_bytes(&n.to_be_bytes());
    }

    pub fn put_tag(&mut self, t: Tag)
        requires { length (body_so_far self.old) + 8 ≤ max_body_bytes }
        ensures added { body_so_far self.new ≡ body_so_far self.old ++ tag_bytes t }
    {
        self.put_number(t.height);
        self.put_number(t.server);
    }

    // A value or a symbol: its length, its bytes, and zeros up to a multiple of 4.
    pub fn put_opaque(&mut self, cells: &Cells)
        requires { length (body_so_far self.old) + (4 + padded max_cells) ≤ max_body_bytes }
        ensures added { body_so_far self.new ≡ body_so_far self.old ++ opaque_bytes (items cells.now) }
        ensures len { length (body_so_far self.new) ≤ length (body_so_far self.old) + (4 + padded max_cells) }
    {
        let n = cells.len();
        self.put_number(n as u32);
        self.put_bytes(cells.as_slice());
        let zeros = [0u8; 3];
        let padding = (n + 3) / 4 * 4 - n;
        self.put_bytes(&zeros[0..padding]);
    }

    // The count of some items, and the items.
    pub fn put_list<T: Item>(&mut self, list: &[T])
        requires { (length (body_so_far self.old) + length (counted_bytes T.Item.bytes list.now) ≤ max_body_bytes) × (length list.now < 2 ^ 32) }
        ensures added { body_so_far self.new ≡ body_so_far self.old ++ counted_bytes T.Item.bytes list.now }
    {
        self.put_number(list.len() as u32);
        for x in list {
            x.put(self);
        }
    }
}

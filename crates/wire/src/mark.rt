// The record's mark: four bytes, the last-fragment bit and the length of the body.
ghost use Rattle.std.specs.Prelude.{◌≡◌};
ghost use Rattle.wire.specs.Reading.{Cut, mark};

use crate::faults::MarkFault;

// The body of the record that the bytes begin with.
pub fn body(bytes: &[u8]) -> Result<&[u8], MarkFault>
    ensures cut { Cut (mark bytes.now) result }
{
    match bytes {
        [a, b, c, d, rest @ ..] => {
            let n = u32::from_be_bytes([*a % 128, *b, *c, *d]) as usize;
            if n > rest.len() {
                return Err(MarkFault::TooShort);
            }
            if *a < 128 {
                return Err(MarkFault::NotLast);
            }
            Ok(&rest[..n])
        }
        _ => Err(MarkFault::TooShort),
    }
}

// The body of one record, as far as it is written.
use terms::bounded::Bounded;
use terms::limits::MAX_BODY_BYTES;

pub mod puts;

#[derive(Clone, Copy)]
pub struct Body {
    bytes: Bounded<u8, MAX_BODY_BYTES>,
}

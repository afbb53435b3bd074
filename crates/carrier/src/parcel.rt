// A place of bytes, which always begin with a record.
ghost use Rattle.std.specs.Prelude.{◌≡◌, true, length};
ghost use Rattle.terms.specs.Limits.{max_record_bytes};
ghost use Rattle.carrier.specs.Parcels.{is_record};

use terms::limits::MAX_RECORD_BYTES;

pub mod bytes;

#[derive(Clone, Copy)]
pub struct Parcel {
    bytes: [u8; MAX_RECORD_BYTES],
    ghost whole: { length bytes ≡ max_record_bytes },
    ghost record_inside: { is_record bytes ≡ true },
}

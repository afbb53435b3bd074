// A cursor over the borrowed bytes of one record. Each of its methods reads one field.
pub mod fields;

// What is left to read of the record, and the byte at which the record ends.
#[derive(Drop)]
pub struct Cursor<'a> {
    left: &'a [u8],
    end: usize,
}

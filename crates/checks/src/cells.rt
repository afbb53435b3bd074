// Lists of cells for the tests.
use std::test::Fail;
use terms::bounded::Cells;

// The cells of these numbers; more than a value may have fail the test.
pub fn cells(numbers: &[u8]) -> Result<Cells, Fail> {
    Cells::from_slice(0, numbers).ok_or_else(|| Fail::new("too many cells"))
}

// The tests of values.
ghost use Rattle.std.specs.Prelude.{◌≡◌, ◌&&◌, ⊤, map, length, ◌==◌};
ghost use Rattle.terms.specs.Answers.{Answered};
ghost use Rattle.terms.specs.Items.{items};
ghost use Rattle.code.specs.Layout.{all_elements};
ghost use Rattle.code.specs.Meaning.{meaning};
ghost use Rattle.code.specs.Refusing.{values_refusal, all_long, all_in_field};

use super::Code;
use field::interface::Field;
use terms::bounded::Cells;
use terms::refusal::Refusal;

impl<F: Field + Copy> Code<F> {
    // Refuses a list that is not n values of the code's cells, and then a cell that is no element.
    pub(crate) fn check_values(&self, n: usize, values: &[Cells]) -> Result<(), Refusal>
        ensures { Answered (values_refusal (meaning F.arithmetic self.now) n (map items values.now)) (λ _. ⊤) result }
    {
        if !whole_list(values, n, self.cells) {
            return Err(Refusal::WrongLength);
        }
        if !all_in_field::<F>(values) {
            return Err(Refusal::NoElement);
        }
        Ok(())
    }
}

// Whether there are n values of w cells each.
fn whole_list(values: &[Cells], n: usize, w: usize) -> bool
    ensures { result ≡ (length (map items values.now) == n && all_long w (map items values.now)) }
{
    values.len() == n && all_long(values, w)
}

// Whether each value has w cells.
fn all_long(values: &[Cells], w: usize) -> bool
    ensures { result ≡ all_long w (map items values.now) }
{
    values.iter().all(|v| v.len() == w)
}

// Whether each cell of each value is an element.
fn all_in_field<F: Field>(values: &[Cells]) -> bool
    ensures { result ≡ all_in_field F.arithmetic.size (map items values.now) }
{
    values.iter().all(|v| all_elements::<F>(v.as_slice()))
}

// Whether each number is an element.
pub fn all_elements<F: Field>(numbers: &[u8]) -> bool
    ensures told { result ≡ all_elements F.arithmetic.size numbers.now }
{
    numbers.iter().all(|x| u16::from(*x) < F::size())
}

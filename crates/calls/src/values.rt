// Values that a group takes.
ghost use Rattle.std.specs.Prelude.{◌≡◌, ℕ};
ghost use Rattle.terms.specs.Answers.{Answered};
ghost use Rattle.terms.specs.Items.{items};
ghost use Rattle.group.specs.States.{layout};
ghost use Rattle.calls.specs.Refusing.{value_why};

use code::code::values::all_elements;
use field::interface::Field;
use group::group::Group;
use teller::values::Value;
use terms::bounded::Cells;
use terms::refusal::Refusal;

// The value of these cells, if they are one element for each cell of the group.
pub(crate) fn value_of<F: Field + Copy>(group: &Group<F>, cells: &[u8]) -> Result<Value, Refusal>
    ensures { (places : ℕ) → Answered (value_why (layout F.arithmetic group.now places) cells.now) (λ v. items v.cells ≡ cells.now) result }
{
    if cells.len() != group.code.cells() {
        return Err(Refusal::WrongLength);
    }
    if !all_elements::<F>(cells) {
        return Err(Refusal::NoElement);
    }
    let cells = Cells::from_slice(0, cells).ok_or(Refusal::WrongLength)?;
    Ok(Value { cells })
}

// Sums over the field.
ghost use Rattle.std.specs.Prelude.{◌≡◌, ℕ, ◌<◌};
ghost use Rattle.field.specs.Sums.{sum};

use field::interface::Field;

// The sum of n terms, each made from its number.
pub(crate) fn sum<F: Field, T: Fn(usize) -> u8>(n: usize, term: T) -> u8
    requires { (j : ℕ) → j < n → T.pre term j }
    ensures { (terms : ℕ → ℕ) → ((j y : ℕ) → j < n → T.post term j y → y ≡ terms j) → result ≡ sum F.arithmetic n terms }
{
    let mut sum = 0;
    for j in 0..n {
        sum = F::add(sum, term(j));
    }
    sum
}

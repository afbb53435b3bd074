// What a field is: its operations by their meaning, and the laws that each implementation proves.
ghost use Rattle.std.specs.Prelude.{◌≡◌, ℕ};
ghost use Rattle.field.specs.Arithmetic.{Arithmetic};
ghost use Rattle.field.specs.Laws.{Ring, Inverses};

pub trait Field {
    // The size and the meaning of adding, negating and multiplying.
    ghost arithmetic: { Arithmetic };

    ghost inverse: { ℕ → ℕ };

    // How many elements there are: they are 0 to size − 1.
    fn size() -> u16
        ensures counted { result ≡ arithmetic.size };

    fn add(x: u8, y: u8) -> u8
        ensures sum { result ≡ arithmetic.plus x y };

    fn neg(x: u8) -> u8
        ensures negative { result ≡ arithmetic.minus x };

    fn mul(x: u8, y: u8) -> u8
        ensures product { result ≡ arithmetic.times x y };

    // The inverse; that of 0 is told as 0.
    fn inv(x: u8) -> u8
        ensures inverted { result ≡ inverse x };

    ghost ring: { Ring arithmetic };

    ghost inverses: { Inverses arithmetic inverse };
}

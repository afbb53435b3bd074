// GF(256): bytes as polynomials over bits, modulo the one whose bits are hexadecimal 11D.
ghost use Rattle.std.specs.Prelude.{◌≡◌, ◌<◌};
ghost use Rattle.field.specs.Binary.{gf256, inverse_gf256, doubles};
ghost use Rattle.field.specs.Polynomials;

use crate::interface::Field;
use crate::tables::{LOGARITHMS, POWERS};

#[derive(Clone, Copy)]
pub struct Gf256;

impl Field for Gf256 {
    ghost arithmetic = { gf256 };

    ghost inverse = { inverse_gf256 };

    ghost ring = { Polynomials.ring };

    ghost inverses = { Polynomials.inverses };

    fn size() -> u16 {
        u8::MAX as u16 + 1
    }

    fn add(x: u8, y: u8) -> u8 {
        x ^ y
    }

    fn neg(x: u8) -> u8 {
        x
    }

    fn mul(x: u8, y: u8) -> u8 {
        if x == 0 || y == 0 { 0 } else { product(x, y) }
    }

    fn inv(x: u8) -> u8 {
        if x == 0 { 0 } else { reciprocal(x) }
    }
}

// The product by the sum of the logarithms.
fn product(x: u8, y: u8) -> u8
    requires { (0 < x) × (0 < y) }
    ensures { result ≡ gf256.times x y }
{
    power(logarithm(x) as usize + logarithm(y) as usize)
}

// The inverse by its logarithm.
fn reciprocal(x: u8) -> u8
    requires { 0 < x }
    ensures { result ≡ inverse_gf256 x }
{
    power(255 - logarithm(x) as usize)
}

// 2 to the power n.
fn power(n: usize) -> u8
    requires { n < 510 }
    ensures { result ≡ doubles n 1 }
{
    POWERS[n]
}

// The logarithm of x to the base 2.
fn logarithm(x: u8) -> u8
    requires { 0 < x }
    ensures { (result < 255) × (doubles result 1 ≡ x) }
{
    LOGARITHMS[x as usize]
}

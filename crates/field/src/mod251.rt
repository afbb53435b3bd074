// The whole numbers modulo 251.
ghost use Rattle.std.specs.Prelude.{◌≡◌};
ghost use Rattle.field.specs.Modular.{modulo, inverse_modulo};
ghost use Rattle.std.proofs.Common.{lit≤};
ghost use Rattle.field.specs.Residues;
ghost use Rattle.field.specs.Modulo251;

use crate::interface::Field;
use crate::tables::INVERSES;

#[derive(Clone, Copy)]
pub struct Mod251;

const MODULUS: u8 = 251;

impl Field for Mod251 {
    ghost arithmetic = { modulo 251 };

    ghost inverse = { inverse_modulo 251 };

    ghost ring = { Residues.ring 251 (lit≤ tt) (lit≤ tt) };

    ghost inverses = { Modulo251.inverses };

    fn size() -> u16 {
        MODULUS as u16
    }

    fn add(x: u8, y: u8) -> u8 {
        if x < MODULUS && y < MODULUS {
            ((x as u16 + y as u16) % 251) as u8
        } else {
            0
        }
    }

    fn neg(x: u8) -> u8 {
        if x < MODULUS {
            (MODULUS - x) % MODULUS
        } else {
            0
        }
    }

    fn mul(x: u8, y: u8) -> u8 {
        if x < MODULUS && y < MODULUS {
            ((x as u16 * y as u16) % 251) as u8
        } else {
            0
        }
    }

    fn inv(x: u8) -> u8 {
        if x < MODULUS { INVERSES[x as usize] } else { 0 }
    }
}

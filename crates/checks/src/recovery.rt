// Recovery and decoding, against a count of all values.
use crate::cells::cells;
use code::code::Code;
use field::gf256::Gf256;
use field::interface::Field;
use field::mod251::Mod251;
use std::array;
use std::process::Abort;
use std::test::Fail;
use terms::bounded::Cells;
use terms::refusal::Refusal;
use terms::servers::ServerSet;

// Six servers and three objects: the objects, two sums, and a server that repeats another.
const TABLE: [u8; 18] = [1, 0, 0, 0, 1, 0, 0, 0, 1, 1, 1, 1, 1, 2, 1, 2, 2, 2];

const BITS: [usize; 6] = [1, 2, 4, 8, 16, 32];

// The servers whose symbol does not change when the objects change by d, as bits.
fn blind<F: Field>(d: [u8; 3]) -> usize {
    let mut mask = 0;
    for (row, bit) in TABLE.chunks_exact(3).zip(BITS) {
        let changes = row
            .iter()
            .zip(d)
            .map(|(coefficient, change)| F::mul(*coefficient, change));
        if changes.fold(0, |sum, change| F::add(sum, change)) == 0 {
            mask |= bit;
        }
    }
    mask & 63
}

// The sets that miss some change of the object k by 1: counted over every change of the others.
fn missing<F: Field>(k: usize) -> [bool; 64] {
    let mut seen = [false; 64];
    for low in (0..=255u8).filter(|x| is_element::<F>(*x)) {
        for high in (0..=255u8).filter(|x| is_element::<F>(*x)) {
            let d = match k {
                0 => [1, low, high],
                1 => [low, 1, high],
                _ => [low, high, 1],
            };
            seen[blind::<F>(d) & 63] = true;
        }
    }
    seen
}

fn is_element<F: Field>(x: u8) -> bool {
    u16::from(x) < F::size()
}

fn set_of(mask: usize) -> Result<ServerSet, Fail> {
    let mut set = ServerSet::empty();
    for (s, bit) in BITS.iter().enumerate() {
        if mask & *bit != 0 {
            set = set.with(s)?;
        }
    }
    Ok(set)
}

// A set recovers k unless all its servers are blind to some change of k.
fn agrees<F: Field + Copy>(rt: &impl Abort, code: &Code<F>, k: usize) -> Result<(), Fail> {
    let seen = missing::<F>(k);
    for mask in 0..64usize {
        let lost = (0..64usize).any(|other| seen[other] && mask & other == mask);
        assert_eq!(rt; code.recovers(&set_of(mask)?, k)?, !lost);
    }
    Ok(())
}

#[test]
fn all_sets_modulo_251(rt: HostRuntime) -> Result<(), Fail> {
    let code = Code::new(Mod251, 6, 3, 1, &TABLE)?;
    for k in 0..3usize {
        agrees(&rt, &code, k)?;
    }
    Ok(())
}

#[test]
fn all_sets_of_gf256(rt: HostRuntime) -> Result<(), Fail> {
    let code = Code::new(Gf256, 6, 3, 1, &TABLE)?;
    for k in 0..3usize {
        agrees(&rt, &code, k)?;
    }
    Ok(())
}

fn all_symbols<F: Field + Copy>(
    code: &Code<F>,
    values: &[Cells; 3],
) -> Result<[Cells; 6], Refusal> {
    array::try_from_fn(|s| code.symbol(s, values))
}

// Every set that recovers an object gives its value back, and every other set gives none.
fn decodes<F: Field + Copy>(
    rt: &impl Abort,
    code: &Code<F>,
    values: &[Cells; 3],
) -> Result<(), Fail> {
    let symbols = all_symbols(code, values)?;
    for mask in 0..64usize {
        let set = set_of(mask)?;
        for (k, value) in values.iter().enumerate() {
            match code.decode(&set, &symbols, k)? {
                Some(decoded) => assert!(rt; decoded.as_slice() == value.as_slice()),
                None => assert_eq!(rt; code.recovers(&set, k)?, false),
            }
        }
    }
    Ok(())
}

#[test]
fn values_come_back(rt: HostRuntime) -> Result<(), Fail> {
    let values = [cells(&[100, 1])?, cells(&[200, 0])?, cells(&[250, 17])?];
    decodes(&rt, &Code::new(Mod251, 6, 3, 2, &TABLE)?, &values)?;
    decodes(&rt, &Code::new(Gf256, 6, 3, 2, &TABLE)?, &values)
}

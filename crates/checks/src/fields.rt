// Fields at the edges of their sizes, and their laws sampled on every pair.
use field::gf256::Gf256;
use field::interface::Field;
use field::mod251::Mod251;

// x, y, and the sum, the negative of x, the product and the inverse of x.
type Row = [u8; 6];

const MODULO: [Row; 7] = [
    [0, 0, 0, 0, 0, 0],
    [2, 126, 128, 249, 1, 126],
    [250, 250, 249, 1, 1, 250],
    [250, 1, 0, 1, 250, 250],
    [251, 1, 0, 0, 0, 0],
    [1, 251, 0, 250, 0, 1],
    [255, 255, 0, 0, 0, 0],
];

const BINARY: [Row; 5] = [
    [0, 7, 7, 0, 0, 0],
    [2, 128, 130, 2, 29, 142],
    [255, 255, 0, 255, 226, 253],
    [3, 5, 6, 3, 15, 244],
    [1, 200, 201, 1, 200, 1],
];

fn row<F: Field>(x: u8, y: u8) -> Row {
    [x, y, F::add(x, y), F::neg(x), F::mul(x, y), F::inv(x)]
}

#[test]
fn modulo_251_at_its_edges(rt: HostRuntime) {
    assert_eq!(rt; Mod251::size(), 251);
    for r in &MODULO {
        assert_eq!(rt; row::<Mod251>(r[0], r[1]), *r);
    }
}

#[test]
fn gf256_at_its_edges(rt: HostRuntime) {
    assert_eq!(rt; Gf256::size(), 256);
    for r in &BINARY {
        assert_eq!(rt; row::<Gf256>(r[0], r[1]), *r);
    }
}

// Every product by shift and exclusive or, against the one from the table of powers.
#[test]
fn gf256_products_bit_by_bit(rt: HostRuntime) {
    for x in 0..=255u8 {
        for y in 0..=255u8 {
            assert_eq!(rt; u16::from(Gf256::mul(x, y)), shifted_product(x, y));
        }
    }
}

fn shifted_product(x: u8, y: u8) -> u16 {
    let mut left = u16::from(x);
    let mut right = y;
    let mut sum = 0;
    for _ in 0..8u8 {
        if right & 1 == 1 {
            sum ^= left;
        }
        right = right / 2;
        left = (left & 0x7fff) * 2;
        if left & 256 == 256 {
            left ^= 0x11d;
        }
    }
    sum
}

#[test]
fn every_element_but_0_has_an_inverse(rt: HostRuntime) {
    for x in 1..251u8 {
        assert_eq!(rt; Mod251::mul(x, Mod251::inv(x)), 1);
    }
    for x in 1..=255u8 {
        assert_eq!(rt; Gf256::mul(x, Gf256::inv(x)), 1);
    }
}

// Layout at the edges of its bounds; symbols, re-encoding and refusals.
use crate::cells::cells;
use code::code::Code;
use field::gf256::Gf256;
use field::mod251::Mod251;
use std::test::Fail;
use terms::refusal::Refusal;
use terms::servers::ServerSet;

const UNIT: [u8; 49] = [
    1, 1, 1, 1, 1, 1, 1, 1, 1, 1, 1, 1, 1, 1, 1, 1, 1, 1, 1, 1, 1, 1, 1, 1, 1, 1, 1, 1, 1, 1, 1, 1,
    1, 1, 1, 1, 1, 1, 1, 1, 1, 1, 1, 1, 1, 1, 1, 1, 1,
];

// The refusal, if the code is not laid out.
fn refused(servers: usize, objects: usize, cells: usize, table: &[u8]) -> Option<Refusal> {
    Code::new(Mod251, servers, objects, cells, table).err()
}

#[test]
fn sizes_at_their_bounds(rt: HostRuntime) {
    assert_eq!(rt;
        refused(1, 1, 1, &UNIT[..1]),
        Some(Refusal::ServersOutOfBounds)
    );
    assert_eq!(rt; refused(2, 1, 1, &UNIT[..2]), None);
    assert_eq!(rt; refused(6, 1, 1, &UNIT[..6]), None);
    assert_eq!(rt;
        refused(7, 1, 1, &UNIT[..7]),
        Some(Refusal::ServersOutOfBounds)
    );
    assert_eq!(rt;
        refused(2, 0, 1, &UNIT[..0]),
        Some(Refusal::ObjectsOutOfBounds)
    );
    assert_eq!(rt;
        refused(2, 7, 1, &UNIT[..14]),
        Some(Refusal::ObjectsOutOfBounds)
    );
    assert_eq!(rt;
        refused(2, 1, 0, &UNIT[..2]),
        Some(Refusal::CellsOutOfBounds)
    );
    assert_eq!(rt; refused(2, 1, 16, &UNIT[..2]), None);
    assert_eq!(rt;
        refused(2, 1, 17, &UNIT[..2]),
        Some(Refusal::CellsOutOfBounds)
    );
}

#[test]
fn causes_in_their_order(rt: HostRuntime) {
    assert_eq!(rt;
        refused(7, 7, 17, &UNIT[..3]),
        Some(Refusal::ServersOutOfBounds)
    );
    assert_eq!(rt;
        refused(6, 7, 17, &UNIT[..3]),
        Some(Refusal::ObjectsOutOfBounds)
    );
    assert_eq!(rt;
        refused(6, 6, 17, &UNIT[..3]),
        Some(Refusal::CellsOutOfBounds)
    );
    assert_eq!(rt; refused(6, 6, 16, &UNIT[..3]), Some(Refusal::NoTable));
    assert_eq!(rt;
        refused(6, 6, 16, &UNIT[..36]),
        Some(Refusal::ObjectNotRecovered)
    );
}

#[test]
fn tables_that_are_none(rt: HostRuntime) {
    assert_eq!(rt; refused(3, 1, 1, &UNIT[..2]), Some(Refusal::NoTable));
    assert_eq!(rt; refused(3, 1, 1, &UNIT[..4]), Some(Refusal::NoTable));
    assert_eq!(rt; refused(2, 2, 1, &[1, 0, 0, 250]), None);
    assert_eq!(rt; refused(2, 2, 1, &[1, 0, 0, 251]), Some(Refusal::NoTable));
    assert!(rt; Code::new(Gf256, 2, 2, 1, &[1, 0, 0, 255]).is_ok());
    // Nobody contains object 1, and two equal rows do not tell two objects apart.
    assert_eq!(rt;
        refused(2, 2, 1, &[1, 0, 1, 0]),
        Some(Refusal::ObjectNotRecovered)
    );
    assert_eq!(rt;
        refused(2, 2, 1, &[1, 1, 1, 1]),
        Some(Refusal::ObjectNotRecovered)
    );
}

#[test]
fn symbols_of_two_cells(rt: HostRuntime) -> Result<(), Fail> {
    let code = Code::new(Mod251, 3, 2, 2, &[1, 0, 0, 1, 1, 250])?;
    let values = [cells(&[100, 250])?, cells(&[200, 1])?];
    let symbol = code.symbol(2, &values)?;
    assert!(rt; symbol.as_slice() == [151, 249].as_slice());
    assert_eq!(rt; code.contains(0, 1)?, false);
    assert_eq!(rt; code.contains(2, 1)?, true);
    assert_eq!(rt; code.coefficient(2, 1)?, 250);
    let turned = code.re_encode(2, 1, &symbol, &values[1], &cells(&[7, 0])?)?;
    let again = code.symbol(2, &[values[0], cells(&[7, 0])?])?;
    assert!(rt; turned.as_slice() == again.as_slice());
    Ok(())
}

#[test]
fn refusals_of_calls(rt: HostRuntime) -> Result<(), Fail> {
    let code = Code::new(Mod251, 3, 2, 2, &[1, 0, 0, 1, 1, 1])?;
    let good = cells(&[250, 0])?;
    assert_eq!(rt;
        code.symbol(3, &[good, good]).err(),
        Some(Refusal::NoSuchServer)
    );
    assert_eq!(rt; code.symbol(0, &[good]).err(), Some(Refusal::WrongLength));
    assert_eq!(rt;
        code.symbol(0, &[good, good, good]).err(),
        Some(Refusal::WrongLength)
    );
    assert_eq!(rt;
        code.symbol(0, &[good, cells(&[1])?]).err(),
        Some(Refusal::WrongLength)
    );
    assert_eq!(rt;
        code.symbol(0, &[good, cells(&[1, 2, 3])?]).err(),
        Some(Refusal::WrongLength)
    );
    assert_eq!(rt;
        code.symbol(0, &[good, cells(&[251, 0])?]).err(),
        Some(Refusal::NoElement)
    );
    assert_eq!(rt;
        code.re_encode(3, 2, &good, &good, &good).err(),
        Some(Refusal::NoSuchServer)
    );
    assert_eq!(rt;
        code.re_encode(2, 2, &good, &good, &good).err(),
        Some(Refusal::NoSuchObject)
    );
    assert_eq!(rt;
        code.re_encode(2, 1, &good, &cells(&[])?, &good).err(),
        Some(Refusal::WrongLength)
    );
    assert_eq!(rt;
        code.re_encode(2, 1, &good, &good, &cells(&[0, 255])?).err(),
        Some(Refusal::NoElement)
    );
    assert_eq!(rt; code.contains(3, 5), Err(Refusal::NoSuchServer));
    assert_eq!(rt; code.contains(2, 2), Err(Refusal::NoSuchObject));
    Ok(())
}

#[test]
fn sets_of_servers(rt: HostRuntime) -> Result<(), Fail> {
    let code = Code::new(Mod251, 3, 2, 1, &[1, 0, 0, 1, 1, 1])?;
    assert!(rt; ServerSet::of(&[6]).is_err());
    assert_eq!(rt;
        code.recovers(&ServerSet::of(&[3])?, 2),
        Err(Refusal::NoSuchServer)
    );
    assert_eq!(rt;
        code.recovers(&ServerSet::of(&[2])?, 2),
        Err(Refusal::NoSuchObject)
    );
    assert_eq!(rt; code.recovers(&ServerSet::empty(), 0)?, false);
    assert_eq!(rt; code.recovers(&ServerSet::of(&[1, 2])?, 0)?, true);
    assert_eq!(rt; code.recovers(&ServerSet::of(&[0, 0])?, 1)?, false);
    Ok(())
}

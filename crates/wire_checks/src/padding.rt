// Values of every length, with their padding.
use crate::samples::*;
use message::kinds::*;
use std::process::Abort;
use std::test::Fail;
use wire::faults::Told;
use wire::read::read_message;
use wire::write::write_message;

const CELLS: [u8; 16] = [1, 2, 3, 4, 5, 6, 7, 8, 9, 10, 11, 12, 13, 14, 15, 16];

// Where the value of a plain reply begins.
const START: usize = 16;

fn reply(rt: &impl Abort, length: usize) -> Result<Message, Fail> {
    assert!(rt; length <= 16);
    Ok(Message::PlainReply {
        read: 1,
        value: list(0, &CELLS[0..length])?,
    })
}

// The number of the fault that reading tells.
fn fault(bytes: &[u8]) -> Option<u32> {
    let fault = read_message(bytes).err()?;
    Some(Told::from(fault).number)
}

#[test]
fn values_of_every_length(rt: HostRuntime) -> Result<(), Fail> {
    for length in 1..17usize {
        let mut bytes = [0xff; ROOM];
        let n = write_message(&reply(&rt, length)?, &mut bytes)?;
        assert_eq!(rt; n, START + (length + 3) / 4 * 4);
        assert_eq!(rt; fault(&bytes), None);
        for i in START + length..n {
            assert!(rt; i < ROOM);
            assert_eq!(rt; bytes[i], 0);
            let mut other = bytes;
            other[i] = 1;
            assert_eq!(rt; fault(&other), Some(21));
        }
    }
    Ok(())
}

#[test]
fn values_too_short_and_too_long(rt: HostRuntime) -> Result<(), Fail> {
    let mut bytes = [0; ROOM];
    assert_eq!(rt;
        refused(write_message(&reply(&rt, 0)?, &mut bytes)),
        Some(23)
    );
    let n = write_message(&reply(&rt, 16)?, &mut bytes)?;
    assert_eq!(rt; n, 32);
    assert_eq!(rt; fault(&bytes), None);
    bytes[3] = 48;
    bytes[15] = 17;
    assert_eq!(rt; fault(&bytes), Some(21));
    Ok(())
}

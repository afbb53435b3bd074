// The longest write notice, written and read again and again.
use anyhow::bail;
use message::kinds::{Clock, Message};
use terms::bounded::Cells;
use terms::limits::{MAX_CELLS, MAX_RECORD_BYTES, MAX_SERVERS};
use wire::read::read_message;
use wire::write::write_message;

pub const TURNS: u32 = 1_000_000;

// The last byte of the height in the record.
const HEIGHT: usize = 35;

// A write notice of 16 cells and 6 counts.
pub fn notice(height: u32) -> Message {
    Message::WriteNotice {
        object: 0,
        value: Cells::from_slice(0, &[7; MAX_CELLS]).unwrap(),
        height,
        clock: Clock::from_slice(0, &[9; MAX_SERVERS]).unwrap(),
    }
}

// The same notice with another height.
fn at_height(m: &Message, height: u32) -> Message {
    match m {
        Message::WriteNotice {
            object,
            value,
            clock,
            height: _,
        } => Message::WriteNotice {
            object: *object,
            value: *value,
            height,
            clock: *clock,
        },
        _ => *m,
    }
}

// The bytes written, and a byte of each record, summed up.
pub fn write_all() -> anyhow::Result<u64> {
    let first = notice(1);
    let mut place = [0; MAX_RECORD_BYTES];
    let mut sum = 0u64;
    for i in 0..TURNS {
        let n = write_message(&at_height(&first, 1 + i), &mut place)?;
        sum = sum
            .wrapping_add(n as u64)
            .wrapping_add(u64::from(place[HEIGHT]));
    }
    Ok(sum)
}

// The bytes read, and the height of each notice, summed up.
pub fn read_all() -> anyhow::Result<u64> {
    let mut place = [0; MAX_RECORD_BYTES];
    let _ = write_message(&notice(1), &mut place)?;
    let mut sum = 0u64;
    for i in 0..TURNS {
        place[HEIGHT] = (1 + i % 200) as u8;
        sum = sum.wrapping_add(height_and_bytes(&place)?);
    }
    Ok(sum)
}

// The height of the notice and the number of bytes that it takes, summed up.
fn height_and_bytes(place: &[u8]) -> anyhow::Result<u64> {
    let (m, used) = read_message(place)?;
    match m {
        Message::WriteNotice { height, .. } => Ok(u64::from(height).wrapping_add(used as u64)),
        _ => bail!("not a write notice"),
    }
}

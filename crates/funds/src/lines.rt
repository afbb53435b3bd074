// Messages on the lines between offices: as bytes, and in lanes.
use crate::offices::{ALL_OFFICES, BONDS};
use carrier::blocks::Blocks;
use carrier::lanes::Carrier;
use carrier::parcel::Parcel;
use carrier::place::{Place, blank_places};
use message::kinds::{Clock, Message};
use message::tag::Tag;
use std::io;
use terms::limits::MAX_RECORD_BYTES;
use wire::read::read_message;
use wire::write::write_message;

const SERVERS: usize = 3;

const PLACES: usize = 2;

const LANES: usize = SERVERS * (SERVERS - 1);

// Seoul's notice of the bonds' record, as it goes over the line.
fn notice() -> Message {
    Message::WriteNotice {
        object: 1,
        value: BONDS.record(),
        height: 1,
        clock: Clock::from_slice(0, &[1, 0, 0]).unwrap(),
    }
}

pub fn notice_as_bytes(rt: &HostRuntime) -> anyhow::Result<()> {
    println!(rt; "")?;
    println!(rt; "Seoul writes the bonds' record: its notice to the other offices, as bytes")?;
    println!(rt; "")?;
    let mut place = [0u8; MAX_RECORD_BYTES];
    let length = write_message(&notice(), &mut place)?;
    words(rt, &place, length)?;
    println!(rt; "")?;
    match read_message(&place) {
        Ok(got) => {
            let used = got.1;
            print!(rt; "  read back from {used} bytes: ")?;
            shown(rt, &got.0)?;
        }
        Err(fault) => println!(rt; "  not read back: {fault}")?,
    }
    Ok(())
}

// The bytes in words of four, eight words to a line.
fn words(rt: &HostRuntime, bytes: &[u8], length: usize) -> io::Result<()> {
    for (i, b) in bytes.iter().take(length).enumerate() {
        if i % 32 == 0 {
            print!(rt; "{}  ", if i == 0 { "" } else { "\n" })?;
        } else if i % 4 == 0 {
            print!(rt; " ")?;
        }
        print!(rt; "{:02x}", *b)?;
    }
    println!(rt; "")
}

// A message in words.
fn shown(rt: &HostRuntime, message: &Message) -> io::Result<()> {
    match message {
        Message::WriteNotice { object, height, .. } => {
            println!(rt; "write of fund {object}, height {height}")
        }
        Message::TagNotice { object, tag } => {
            let height = tag.height;
            println!(rt; "tag notice of fund {object}, height {height}")
        }
        Message::Question { read, object, .. } => println!(rt; "question {read} for fund {object}"),
        Message::PlainReply { read, .. } => println!(rt; "plain reply to {read}"),
        Message::CodedReply { read, .. } => println!(rt; "coded reply to {read}"),
    }
}

pub fn both_carriers(rt: &HostRuntime) -> anyhow::Result<()> {
    println!(rt; "")?;
    println!(rt; "A lane with room for {PLACES} messages, filled and emptied")?;
    lane_over::<Message>(rt, "kept as records")?;
    lane_over::<Parcel>(rt, "kept as bytes")
}

fn lane_over<P: Place + Drop>(rt: &HostRuntime, title: &str) -> anyhow::Result<()> {
    println!(rt; "")?;
    println!(rt; "  {title}")?;
    let memory = blank_places::<P>(rt.alloc(), LANES * PLACES)?;
    let mut carrier = Blocks::new(SERVERS, PLACES, memory)?;
    fill(rt, &mut carrier)?;
    empty(rt, &mut carrier)?;
    Ok(())
}

// Three tag notices from Seoul to Dublin: one more than there is room for.
fn fill<C: Carrier>(rt: &HostRuntime, carrier: &mut C) -> io::Result<()> {
    for height in 1..4u32 {
        let tag = Tag { height, server: 0 };
        let to = ALL_OFFICES[2].name;
        match carrier.post(0, 2, Message::TagNotice { object: 1, tag }) {
            Ok(()) => println!(rt; "    posted to {to}: tag notice, height {height}")?,
            Err(refusal) => println!(rt; "    not posted, {refusal}")?,
        }
    }
    Ok(())
}

fn empty<C: Carrier>(rt: &HostRuntime, carrier: &mut C) -> io::Result<()> {
    for _ in 0..3u8 {
        match carrier.take(0, 2) {
            Ok(message) => {
                print!(rt; "    taken: ")?;
                shown(rt, &message)?;
            }
            Err(refusal) => println!(rt; "    not taken, {refusal}")?,
        }
    }
    Ok(())
}

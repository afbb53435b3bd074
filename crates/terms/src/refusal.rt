// Why a call is refused. A refusal changes nothing.
ghost use Rattle.std.specs.Prelude.{◌≡◌};
ghost use Rattle.terms.specs.Refusals.{number_of};

use std::error::Error;
use std::fmt;

#[derive(Clone, Copy, PartialEq, Eq, Debug)]
pub enum Refusal {
    // Layout.
    ServersOutOfBounds = 1,
    ObjectsOutOfBounds = 2,
    CellsOutOfBounds = 3,
    NoTable = 4,
    ObjectNotRecovered = 5,
    NoMemory = 6,
    // The client.
    NoSuchServer = 7,
    NoSuchObject = 8,
    WrongLength = 9,
    NoSuchRead = 10,
    NoElement = 11,
    // The lanes.
    EqualEnds = 12,
    LaneEmpty = 13,
    // The load.
    NumbersUsedUp = 14,
    HistoryFull = 15,
    ReadsFull = 16,
    LaneFull = 17,
    WaitingFull = 18,
    // Bytes. The other numbers of bytes are faults, told with the place where they lie.
    OutOfRange = 23,
    PlaceTooShort = 25,
}

impl Refusal {
    // The number by which a refusal is told.
    pub fn number(self) -> u8
        ensures numbered { result ≡ number_of self }
    {
        self as u8
    }
}

impl fmt::Display for Refusal {
    fn fmt<W: fmt::Write>(&self, f: &mut fmt::Formatter<W>) -> fmt::Result {
        let number = self.number();
        let cause = cause(*self);
        write!(f, "refused {number}: {cause}")
    }
}

// The cause in words.
fn cause(r: Refusal) -> &'static str {
    match r {
        Refusal::ServersOutOfBounds => "a group has 2 to 6 servers",
        Refusal::ObjectsOutOfBounds => "a group has 1 to 6 objects",
        Refusal::CellsOutOfBounds => "a value has 1 to 16 cells",
        Refusal::NoTable => "the table is not a row of elements for each server",
        Refusal::ObjectNotRecovered => "all servers together do not recover some object",
        Refusal::NoMemory => "the lanes' places are out of bounds or the memory is too short",
        Refusal::NoSuchServer => "no such server",
        Refusal::NoSuchObject => "no such object",
        Refusal::WrongLength => "the value or its place has another length",
        Refusal::NoSuchRead => "no such client read",
        Refusal::NoElement => "a cell is no element of the field",
        Refusal::EqualEnds => "a lane joins two different servers",
        Refusal::LaneEmpty => "the lane is empty",
        Refusal::NumbersUsedUp => "writes, heights or read numbers are used up",
        Refusal::HistoryFull => "the history is full",
        Refusal::ReadsFull => "the server has eight client reads",
        Refusal::LaneFull => "a lane is full",
        Refusal::WaitingFull => "the list of waiting writes is full",
        Refusal::OutOfRange => "a number of the message is out of range",
        Refusal::PlaceTooShort => "the place for writing is too short",
    }
}

impl Error for Refusal {}

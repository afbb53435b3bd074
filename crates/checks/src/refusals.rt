// Refusals by their numbers.
use terms::refusal::Refusal;

const NUMBERS: [(Refusal, u8); 20] = [
    (Refusal::ServersOutOfBounds, 1),
    (Refusal::ObjectsOutOfBounds, 2),
    (Refusal::CellsOutOfBounds, 3),
    (Refusal::NoTable, 4),
    (Refusal::ObjectNotRecovered, 5),
    (Refusal::NoMemory, 6),
    (Refusal::NoSuchServer, 7),
    (Refusal::NoSuchObject, 8),
    (Refusal::WrongLength, 9),
    (Refusal::NoSuchRead, 10),
    (Refusal::NoElement, 11),
    (Refusal::EqualEnds, 12),
    (Refusal::LaneEmpty, 13),
    (Refusal::NumbersUsedUp, 14),
    (Refusal::HistoryFull, 15),
    (Refusal::ReadsFull, 16),
    (Refusal::LaneFull, 17),
    (Refusal::WaitingFull, 18),
    (Refusal::OutOfRange, 23),
    (Refusal::PlaceTooShort, 25),
];

#[test]
fn refusals_by_their_numbers(rt: HostRuntime) {
    for (refusal, number) in &NUMBERS {
        assert_eq!(rt; refusal.number(), *number);
    }
}

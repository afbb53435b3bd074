// What a delivery comes to.
ghost use Rattle.std.specs.Prelude.{◌≡◌};
ghost use Rattle.replies.specs.Told.{delivered_number};

use steps::turns::Turn;

#[derive(Clone, Copy, PartialEq, Eq, Debug)]
pub enum Delivered {
    // A notice was taken.
    Noted = 0,
    // A question drew a plain reply, or a coded one.
    RepliedPlain = 1,
    RepliedCoded = 2,
    // A symbol is in hand, and the read waits on.
    InHand = 3,
    // The read is answered.
    Answered = 4,
    // The read of a reply is not open.
    NotOpen = 5,
    // A coded reply could not be used.
    Unusable = 6,
    // The message does not fit the group.
    Unfit = 7,
}

impl Delivered {
    // The number by which an outcome is told.
    pub fn number(self) -> u8
        ensures numbered { result ≡ delivered_number self }
    {
        self as u8
    }
}

// What a delivery comes to, and its reply for the sender.
pub type DeliverTurn = Turn<Delivered>;

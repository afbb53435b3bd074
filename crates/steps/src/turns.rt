// What a call answers at one server, and what it tells other servers.
ghost use Rattle.std.specs.Prelude.{◌≡◌, ⊤, true, None};
ghost use Rattle.message.specs.Meanings.{meaning};
ghost use Rattle.message.specs.Ranges.{in_range};
ghost use Rattle.steps.specs.Local.{Sendable};
ghost use Rattle.std.proofs.Props.{props};

use message::kinds::Message;
use message::tag::Tag;
use reads::reads::Given;
use std::alloc::AllocError;
use terms::bounded::Cells;

pub mod numbers;

// An answer, with the news for other servers, if there is any, which is within the ranges of messages.
pub struct Turn<A: Copy> {
    pub answer: A,
    pub news: Option<Message>,
    ghost sendable: { Sendable news } by { Prim.hlevel props },
}

impl<A: Copy> Copy for Turn<A> {}

impl<A: Copy> Clone for Turn<A> {
    ghost is_clone = { λ turn copied. copied ≡ turn };

    ghost is_infallible = { λ _. ⊤ };

    fn clone(&self) -> Result<Self, AllocError> {
        Ok(*self)
    }
}

impl<A: Copy> Turn<A> {
    // An answer without news.
    pub fn quiet(answer: A) -> Turn<A>
        ensures answer { result.answer ≡ answer }
        ensures quiet { result.news ≡ None }
    {
        Turn { answer, news: None }
    }
}

// A value with its tag, and the number of the way by which it was had.
#[derive(Clone, Copy)]
pub struct Valued {
    pub value: Cells,
    pub tag: Tag,
    pub way: u8,
}

impl From<Given> for Valued {
    ghost from_gives = { λ given valued. (valued.value ≡ given.value) × (valued.tag ≡ given.tag) × (valued.way ≡ given.way) };

    fn from(given: Given) -> Valued {
        Valued {
            value: given.value,
            tag: given.tag,
            way: given.way,
        }
    }
}

// A read gives a value at once, or is opened under a number.
#[derive(Clone, Copy)]
pub enum ReadAnswer {
    Given(Valued),
    Opened(u32),
}

// What a read comes to, and its question for every other server.
pub type ReadTurn = Turn<ReadAnswer>;

// The number of a read that was opened, and its question for every other server, which is within the ranges of messages.
#[derive(Clone, Copy)]
pub struct Asked {
    pub number: u32,
    pub question: Message,
    ghost sendable: { in_range (meaning question) ≡ true },
}

// A collect gives the answer of its read, or tells that the read is still open.
#[derive(Clone, Copy)]
pub enum CollectAnswer {
    StillOpen,
    Given(Valued),
}

// What an encode came to.
#[derive(Clone, Copy, PartialEq, Eq, Debug)]
pub enum Encoded {
    // Nothing is to be done.
    Nothing = 0,
    // The own tag has moved.
    Moved = 1,
    // The internal read is open already.
    Waiting = 2,
    // The own tag's value was had from the symbol alone.
    Decoded = 3,
    // The internal read was opened.
    Asked = 4,
}

// What an encode comes to, and its news for every other server.
pub type EncodeTurn = Turn<Encoded>;

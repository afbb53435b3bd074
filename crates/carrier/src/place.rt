// A kind of place: it holds one message.
ghost use Rattle.std.specs.Prelude.{◌≡◌, ⊤, IfOk, if◌then◌else◌, vec_len};
ghost use Rattle.terms.specs.Answers.{Answered};
ghost use Rattle.message.specs.Meanings.{Meaning, meaning};
ghost use Rattle.message.specs.Ranges.{in_range};
ghost use Rattle.carrier.specs.Lanes.{range_refusal};
ghost use Rattle.carrier.specs.Parcels.{blank_message};

use message::kinds::Message;
use message::tag::Tag;
use std::alloc::{AllocError, Global};
use terms::refusal::Refusal;

pub trait Place: Copy {
    // the message that the place holds
    ghost held: { Self → Meaning };

    // A place to fill memory with.
    fn blank() -> Self
        ensures blank { held result ≡ blank_message };

    // Puts a message that is within its ranges in the place of what is there; any other leaves it.
    fn put(&mut self, m: &Message) -> Result<(), Refusal>
        ensures answer { Answered (range_refusal (meaning m.now)) (λ _. ⊤) result }
        ensures after { held self.new ≡ (if in_range (meaning m.now) then meaning m.now else held self.old) };

    fn message(&self) -> Message
        ensures as_put { meaning result ≡ held self.now };
}

// A message as it is.
impl Place for Message {
    ghost held = { meaning };

    fn blank() -> Message {
        Message::TagNotice {
            object: 0,
            tag: Tag::zero(),
        }
    }

    fn put(&mut self, m: &Message) -> Result<(), Refusal> {
        if !m.is_in_range() {
            return Err(Refusal::OutOfRange);
        }
        *self = *m;
        Ok(())
    }

    fn message(&self) -> Message {
        *self
    }
}

// Memory of so many places, to lay a carrier over.
pub fn blank_places<P: Place>(heap: Global, count: usize) -> Result<Vec<P>, AllocError>
    ensures as_many { IfOk result (λ v. vec_len v ≡ count) }
{
    Ok(vec![in heap; P::blank(); count]?)
}

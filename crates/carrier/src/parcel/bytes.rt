ghost use Rattle.carrier.specs.Parcels.{message_in};

use super::Parcel;
use crate::place::Place;
use message::kinds::Message;
use terms::limits::MAX_RECORD_BYTES;
use terms::refusal::Refusal;
use wire::read::read_message;
use wire::write::write_message;

impl Place for Parcel {
    ghost held = { λ s. message_in s.bytes };

    fn blank() -> Parcel {
        // the mark, the kind, and zeros: object 0 and the zero tag
        let mut bytes = [0; MAX_RECORD_BYTES];
        bytes[0] = 128;
        bytes[3] = 16;
        bytes[7] = 2;
        Parcel { bytes }
    }

    fn put(&mut self, m: &Message) -> Result<(), Refusal> {
        write_message(m, &mut self.bytes)?;
        Ok(())
    }

    fn message(&self) -> Message {
        read_message(&self.bytes).unwrap().0
    }
}

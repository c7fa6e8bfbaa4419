// What a message's first two bytes stand for: the mark of its byte order, and the number of its type. What stands for neither is refused at the
// message's start, as all is that stands before a body's values. Both refusals are written out: as no function of this crate rests on what `refuse`
// promises, it is OneAnswer alone that holds that promise.
ghost use Rattle.std.specs.Prelude.{◌≡◌};
ghost use Rattle.meaning.specs.Wire.{order_from, kind_from};

use crate::{Fault, MessageType, Order, Place, Refusal};

impl TryFrom<u8> for Order {
    type Error = Refusal;

    ghost try_from_gives = { λ mark r. r ≡ order_from mark };

    fn try_from(mark: u8) -> Result<Self, Refusal> {
        match mark {
            b'l' => Ok(Order::Little),
            b'B' => Ok(Order::Big),
            _ => Err(Refusal {
                fault: Fault::InvalidByteOrder,
                place: Place(0),
            }),
        }
    }
}

impl TryFrom<u8> for MessageType {
    type Error = Refusal;

    ghost try_from_gives = { λ number r. r ≡ kind_from number };

    fn try_from(number: u8) -> Result<Self, Refusal> {
        match number {
            1 => Ok(MessageType::Call),
            2 => Ok(MessageType::Reply),
            3 => Ok(MessageType::Error),
            4 => Ok(MessageType::Signal),
            _ => Err(Refusal {
                fault: Fault::InvalidMessageType,
                place: Place(0),
            }),
        }
    }
}

// Values checked raw (validate_raw.rs): document 01, port order 4.
#![tactic(auto)]

pub mod array_head;
pub mod first_bytes;
pub mod walk;

ghost use Rattle.std.specs.Prelude.{◌≡◌};
ghost use Rattle.meaning.specs.ReadValue.{check_value};

use meaning::{Fault, Length, Order, Place, Refusal};
use walk::{Left, Spot};

// Whether a value of the type that the signature spells stands at the offset, and how long it is.
pub fn validate_marshalled(
    order: Order,
    offset: Place,
    buf: &[u8],
    sig: &[u8],
) -> Result<Length, Refusal>
    ensures { result ≡ check_value order sig.now buf.now offset.0 }
{
    let types = signature::parse_description(sig).unwrap_or(0);
    if types != 1 {
        return Err(meaning::refuse(Fault::BadArgument, 0));
    }
    let Place(off) = offset;
    if buf.len() < off {
        return Err(meaning::refuse(Fault::BadOffset, off));
    }
    let at = Spot {
        sig: Place(0),
        buf: offset,
    };
    let past = walk::value(order, sig, buf, at, Left { levels: 16 })?;
    Ok(Length(past.buf.0 - off))
}

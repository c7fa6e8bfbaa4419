// A message after its field table (unmarshal.rs): the padding, the bounds of the body and its values: document 01, port order 5.
ghost use Rattle.std.specs.Prelude.{◌≡◌, ◌≤◌, List, length};
ghost use Rattle.meaning.specs.Types.{Ty};
ghost use Rattle.meaning.specs.Reader.{reached_of};
ghost use Rattle.meaning.specs.Signature.{parse, types};
ghost use Rattle.meaning.specs.ReadMessage.{body_r};
ghost use Rattle.meaning.specs.Header.{read_header};
ghost use Rattle.unmarshal.specs.Body.{Types, part_of, Held};

use header::fixed_header::Start;
use meaning::{Entry, Fault, Fields, Header, Length, Order, Part, Place, Refusal};
use validate_raw::walk;
use validate_raw::walk::{Left, Spot};

// The values of a body, from `off` to the end, by its signature: nothing may be left after them.
fn unmarshal_body(order: Order, sig: &[u8], buf: &[u8], off: usize) -> Result<Place, Refusal>
    requires types { Types sig.now }
    requires inside { off ≤ length buf.now }
    ensures { (ts : List Ty) → parse sig.now ≡ types ts → result ≡ reached_of (body_r order ts buf.now off) }
{
    let mut at = Spot {
        sig: Place(0),
        buf: Place(off),
    };
    while at.sig.0 < sig.len() {
        at = walk::value(order, sig, buf, at, Left { levels: 16 })?;
    }
    if at.buf.0 < buf.len() {
        return Err(meaning::refuse(Fault::BodyLeft, at.buf.0));
    }
    Ok(at.buf)
}

// Nothing, at the message's start, for an entry that is no text.
fn signature_part(fields: Fields) -> Part
    ensures { result ≡ part_of fields.signature }
{
    match fields.signature {
        Entry::Text(place, length) => Part(place, length),
        Entry::Number(_) | Entry::Absent => Part(Place(0), Length(0)),
    }
}

// The rest of a message whose fields end at `end`: the padding, and the body by the signature that field 8 holds.
pub fn unmarshal_next_message(
    start: Start,
    fields: Fields,
    buf: &[u8],
    end: usize,
) -> Result<Header, Refusal>
    requires { Held buf.now start fields end }
    ensures { result ≡ read_header buf.now }
{
    // No `map_err(..)?`, as in `unmarshal_header`.
    let at = match util::padded(buf, end, types::align(b'(')) {
        Ok(Place(at)) => at,
        Err(refusal) => return Err(meaning::moved(refusal, 0)),
    };
    let Length(size) = start.body;
    if buf.len() - at < size {
        return Err(meaning::refuse(Fault::NotEnoughBytes, 0));
    }
    let stop = at + size;
    let Part(Place(first), Length(long)) = signature_part(fields);
    unmarshal_body(start.order, &buf[first..first + long], &buf[..stop], at)?;
    Ok(Header {
        order: start.order,
        kind: start.kind,
        flags: start.flags,
        version: start.version,
        serial: start.serial,
        length: Length(stop),
        body: Place(at),
        body_length: start.body,
        fields,
    })
}

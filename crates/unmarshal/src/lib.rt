// Messages (unmarshal.rs): the fixed header, the header fields, the body, and the header that comes of them: document 01, port order 5.
#![tactic(auto)]

pub mod body;
pub mod check_message;

ghost use Rattle.std.specs.Prelude.{◌≡◌};
ghost use Rattle.meaning.specs.Header.{read_header};

use header::{fixed_header, header_fields};
use meaning::{Fault, Header, Refusal};
use util::integers;

// The header of the message at the start of the buffer, once the whole message is checked.
pub fn unmarshal_header(buf: &[u8]) -> Result<Header, Refusal>
    ensures { result ≡ read_header buf.now }
{
    let start = fixed_header::fixed(buf)?;
    if buf.len() < 16 {
        return Err(meaning::refuse(Fault::NotEnoughBytes, 0));
    }
    let len = integers::load32(start.order, buf, 12) as usize;
    if buf.len() - 16 < len {
        return Err(meaning::refuse(Fault::NotEnoughBytes, 0));
    }
    let end = 16 + len;
    // No `map_err(..)?`: of what its closure gives no answer can speak, so the proof did not close.
    match header_fields::unmarshal_header_fields(start.order, start.kind, buf, end, 16) {
        Ok(fields) => body::unmarshal_next_message(start, fields, buf, end),
        Err(refusal) => Err(meaning::moved(refusal, 0)),
    }
}

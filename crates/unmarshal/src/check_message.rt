// Whether bytes are a message, and how long it is (unmarshal.rs): document 01, port order 5.
ghost use Rattle.std.specs.Prelude.{◌≡◌};
ghost use Rattle.meaning.specs.ReadMessage.{check_message};

use meaning::{Length, Refusal};

// Whether the buffer begins with a message, and how long it is.
pub fn check_message(buf: &[u8]) -> Result<Length, Refusal>
    ensures { result ≡ check_message buf.now }
{
    let header = crate::unmarshal_header(buf)?;
    Ok(header.length)
}

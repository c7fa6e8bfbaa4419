// The next message of a stream: whole, cut off by the end of the bytes that are there, or refused.
#![tactic(auto)]

ghost use Rattle.std.specs.Prelude.{◌≡◌, length};
ghost use Rattle.meaning.specs.Faults.{is_short};
ghost use Rattle.stream.specs.Next.{stated_size, next_of, Within};

use header::fixed_header;
use meaning::{Fault, Header, Length, Refusal};
use util::integers;

#[derive(Clone, Copy)]
pub enum Next {
    // A message that was checked.
    Whole(Header),
    // More bytes may still make a message of it, which is at least this long.
    Cut(Length),
    // No message, whatever bytes follow.
    Refused(Refusal),
}

// "Too short means 2 and 3", the numbers of these two.
fn is_short(fault: Fault) -> bool
    ensures { result ≡ is_short fault }
{
    matches!(
        fault,
        Fault::NotEnoughBytes | Fault::NotEnoughBytesForCollection
    )
}

// How many bytes the message at the start of the buffer has by its first 16 bytes, and 16 where they are not all there.
pub fn stated_size(buf: &[u8]) -> usize
    ensures { result ≡ stated_size buf.now }
{
    if buf.len() < 16 {
        return 16;
    }
    let order = fixed_header::byteorder(buf[0]);
    let end = 16 + integers::load32(order, buf, 12) as usize;
    end + util::gap(types::align(b'('), end) + integers::load32(order, buf, 4) as usize
}

// The answer for the message at the start of the buffer.
pub fn next_message(buf: &[u8]) -> Next
    ensures value { result ≡ next_of buf.now }
    ensures within { Within (length buf.now) result }
{
    match unmarshal::unmarshal_header(buf) {
        Ok(header) => Next::Whole(header),
        Err(refusal) => {
            let size = stated_size(buf);
            if is_short(refusal.fault) && buf.len() < size {
                Next::Cut(Length(size))
            } else {
                Next::Refused(refusal)
            }
        }
    }
}

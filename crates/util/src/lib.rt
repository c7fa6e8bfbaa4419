// Padding (util.rs), and what an entry point makes of where a reader gets to: document 01, port order 1.
#![tactic(auto)]

pub mod integers;

ghost use Rattle.std.specs.Prelude.{◌≡◌, ◌+◌, ◌≤◌, ◌<◌, T, length, take, drop};
ghost use Rattle.meaning.specs.Number.{gap as gap_of, zeros as zeros_of};
ghost use Rattle.meaning.specs.ReadValue.{padding};
ghost use Rattle.meaning.specs.Reader.{reached_of};
ghost use Rattle.meaning.specs.Reads.{check_padding};
ghost use Rattle.meaning.specs.Writers.{is_alignment};
ghost use Rattle.util.specs.Entry.{Past, taken_from};

use meaning::{Fault, Length, Place, Refusal};

// How many bytes lead to the next multiple. No division by a variable: `align` is one of four.
pub fn gap(align: usize, off: usize) -> usize
    requires { T (is_alignment align) }
    ensures { result ≡ gap_of align off }
{
    if align == 8 {
        (8 - off % 8) % 8
    } else if align == 4 {
        (4 - off % 4) % 4
    } else if align == 2 {
        (2 - off % 2) % 2
    } else {
        0
    }
}

// Whether `count` bytes from `from` on are zero.
fn zeros(buf: &[u8], from: usize, count: usize) -> bool
    requires { from + count ≤ length buf.now }
    ensures { result ≡ zeros_of (take count (drop from buf.now)) }
{
    buf[from..from + count].iter().all(|byte| *byte == 0)
}

// The place after the padding.
pub fn padded(buf: &[u8], off: usize, align: usize) -> Result<Place, Refusal>
    requires inside { off ≤ length buf.now }
    requires alignment { T (is_alignment align) }
    ensures { result ≡ reached_of (padding align buf.now off) }
{
    let count = gap(align, off);
    if count == 0 {
        return Ok(Place(off));
    }
    if buf.len() - off < count {
        return Err(meaning::refuse(Fault::NotEnoughBytes, off));
    }
    if zeros(buf, off, count) {
        Ok(Place(off + count))
    } else {
        Err(meaning::refuse(Fault::PaddingContainedData, off))
    }
}

// The length of what an entry point's reader took, which started at `off`.
pub fn taken_from(off: usize, reached: Result<Place, Refusal>) -> Result<Length, Refusal>
    requires { Past off reached }
    ensures { result ≡ taken_from off reached }
{
    let place = reached?;
    Ok(Length(place.0 - off))
}

pub fn is_alignment(align: usize) -> bool
    ensures { result ≡ is_alignment align }
{
    matches!(align, 1 | 2 | 4 | 8)
}

// How long the padding at `offset` is.
pub fn align_offset(align: usize, offset: Place, buf: &[u8]) -> Result<Length, Refusal>
    ensures { result ≡ check_padding align buf.now offset.0 }
{
    let off = offset.0;
    if buf.len() < off {
        return Err(meaning::refuse(Fault::BadOffset, off));
    }
    if !is_alignment(align) {
        return Err(meaning::refuse(Fault::BadAlignment, off));
    }
    taken_from(off, padded(buf, off, align))
}

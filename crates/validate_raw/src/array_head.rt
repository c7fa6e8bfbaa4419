// The head of an array or a dict: its length, and where its contents lie (validate_raw.rs). Document 01, port order 4.
ghost use Rattle.std.specs.Prelude.{◌≡◌, ℕ, ◌+◌, ◌≤◌, ◌<◌, T, length};
ghost use Rattle.meaning.specs.Writers.{is_alignment};
ghost use Rattle.validate_raw.specs.Head.{lying_r, head_r, opened_of};

use meaning::{Fault, Length, Order, Part, Place, Refusal};
use util::integers;

// Where an array's contents lie whose length is `len`, from the place after its length field on.
fn contents(buf: &[u8], off: usize, len: usize, align: usize) -> Result<Part, Refusal>
    requires inside { off ≤ length buf.now }
    requires alignment { T (is_alignment align) }
    ensures { result ≡ opened_of (length buf.now) (lying_r align len buf.now off) }
{
    if buf.len() - off < len {
        return Err(meaning::refuse(Fault::NotEnoughBytesForCollection, off));
    }
    let Place(first) = util::padded(buf, off, align)?;
    if buf.len() - first < len {
        return Err(meaning::refuse(Fault::NotEnoughBytesForCollection, first));
    }
    Ok(Part(Place(first), Length(len)))
}

// Where the contents of the array at `off` lie, whose elements are aligned to `align`.
pub fn opening(order: Order, buf: &[u8], off: usize, align: usize) -> Result<Part, Refusal>
    requires inside { off ≤ length buf.now }
    requires alignment { T (is_alignment align) }
    ensures { result ≡ opened_of (length buf.now) (head_r order align buf.now off) }
{
    let Place(at) = util::padded(buf, off, types::align(b'a'))?;
    let field = types::size(b'u');
    if buf.len() - at < field {
        return Err(meaning::refuse(Fault::NotEnoughBytes, at));
    }
    let len = integers::load32(order, buf, at) as usize;
    contents(buf, at + field, len, align)
}

// The writers of padding and integers (util.rs), into a buffer that the caller lends: document 01, port order 6.
#![tactic(auto)]

pub mod store;
pub mod texts;

ghost use Rattle.std.specs.Prelude.{◌≡◌, T};
ghost use Rattle.meaning.specs.Writers.{is_alignment, write_at, padding_bytes, integer_bytes};

use meaning::{Fault, Order, Place, Refusal};

// An integer of `width` bytes, in the order in which the entry points below refuse.
fn write_integer(
    width: usize,
    x: u64,
    order: Order,
    buf: &mut [u8],
    at: usize,
) -> Result<Place, Refusal>
    requires { T (is_alignment width) }
    ensures value { result ≡ (write_at (integer_bytes order width x) buf.old at).answer }
    ensures buf_after { buf.new ≡ (write_at (integer_bytes order width x) buf.old at).after }
{
    if buf.len() < at {
        return Err(meaning::refuse(Fault::BadOffset, at));
    }
    if buf.len() - at < width {
        return Err(meaning::refuse(Fault::NoRoom, at));
    }
    store::store(order, width, buf, at, x);
    Ok(Place(at + width))
}

// Zeros up to the next multiple of `align`.
pub fn pad_to_align(align: usize, buf: &mut [u8], place: Place) -> Result<Place, Refusal>
    ensures value { result ≡ (write_at (padding_bytes align place.0) buf.old place.0).answer }
    ensures buf_after { buf.new ≡ (write_at (padding_bytes align place.0) buf.old place.0).after }
{
    let at = place.0;
    if buf.len() < at {
        return Err(meaning::refuse(Fault::BadOffset, at));
    }
    if !util::is_alignment(align) {
        return Err(meaning::refuse(Fault::BadAlignment, at));
    }
    let count = util::gap(align, at);
    if buf.len() - at < count {
        return Err(meaning::refuse(Fault::NoRoom, at));
    }
    store::put_zeros(buf, at, count);
    Ok(Place(at + count))
}

// The writers of integers stay three, thin as they are: the original and C name each of them.
pub fn write_u16(val: u16, order: Order, buf: &mut [u8], place: Place) -> Result<Place, Refusal>
    ensures value { result ≡ (write_at (integer_bytes order 2 val) buf.old place.0).answer }
    ensures buf_after { buf.new ≡ (write_at (integer_bytes order 2 val) buf.old place.0).after }
{
    write_integer(types::size(b'q'), val as u64, order, buf, place.0)
}

pub fn write_u32(val: u32, order: Order, buf: &mut [u8], place: Place) -> Result<Place, Refusal>
    ensures value { result ≡ (write_at (integer_bytes order 4 val) buf.old place.0).answer }
    ensures buf_after { buf.new ≡ (write_at (integer_bytes order 4 val) buf.old place.0).after }
{
    write_integer(types::size(b'u'), val as u64, order, buf, place.0)
}

pub fn write_u64(val: u64, order: Order, buf: &mut [u8], place: Place) -> Result<Place, Refusal>
    ensures value { result ≡ (write_at (integer_bytes order 8 val) buf.old place.0).answer }
    ensures buf_after { buf.new ≡ (write_at (integer_bytes order 8 val) buf.old place.0).after }
{
    write_integer(types::size(b't'), val, order, buf, place.0)
}

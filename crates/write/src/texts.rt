// The writers of strings and signatures (util.rs), into a buffer that the caller lends: document 01, port order 6.
ghost use Rattle.std.specs.Prelude.{◌≡◌};
ghost use Rattle.meaning.specs.Value.{sized};
ghost use Rattle.meaning.specs.Writers.{put_at, write_at, string_bytes, signature_bytes};
ghost use Rattle.write.specs.Ready.{Ready};

use crate::store;
use meaning::{Fault, Order, Place, Refusal};
use text::BadText;

// A text that may be written, if there is room: its length in `width` bytes, its bytes, a zero.
fn put_sized(
    order: Order,
    width: usize,
    val: &[u8],
    buf: &mut [u8],
    at: usize,
) -> Result<Place, Refusal>
    requires { Ready width val.now buf.old at }
    ensures value { result ≡ (put_at buf.old at (sized order width val.now)).answer }
    ensures buf_after { buf.new ≡ (put_at buf.old at (sized order width val.now)).after }
{
    let len = val.len();
    let first = width + len;
    if buf.len() - at <= first {
        return Err(meaning::refuse(Fault::NoRoom, at));
    }
    store::store(order, width, buf, at, len as u64);
    store::copy(buf, at + width, val);
    let stop = at + first;
    buf[stop] = 0;
    Ok(Place(stop + 1))
}

// Its length is looked at before its bytes, and its bytes before the room that it needs.
pub fn write_string(
    val: &[u8],
    order: Order,
    buf: &mut [u8],
    place: Place,
) -> Result<Place, Refusal>
    ensures value { result ≡ (write_at (string_bytes order val.now) buf.old place.0).answer }
    ensures buf_after { buf.new ≡ (write_at (string_bytes order val.now) buf.old place.0).after }
{
    let at = place.0;
    if buf.len() < at {
        return Err(meaning::refuse(Fault::BadOffset, at));
    }
    if 0xffff_ffff < val.len() {
        return Err(meaning::refuse(Fault::TextTooLong, at));
    }
    match text::check_text(val) {
        Ok(()) => put_sized(order, 4, val, buf, at),
        Err(BadText::NotUtf8) => Err(meaning::refuse(Fault::InvalidUtf8, at)),
        Err(BadText::HasZero) => Err(meaning::refuse(Fault::StringContainsNullByte, at)),
    }
}

// A signature's length is one byte, the same in either order.
pub fn write_signature(val: &[u8], buf: &mut [u8], place: Place) -> Result<Place, Refusal>
    ensures value { (o : Order) → result ≡ (write_at (signature_bytes o val.now) buf.old place.0).answer }
    ensures buf_after { (o : Order) → buf.new ≡ (write_at (signature_bytes o val.now) buf.old place.0).after }
{
    let at = place.0;
    if buf.len() < at {
        return Err(meaning::refuse(Fault::BadOffset, at));
    }
    if let Err(refusal) = signature::parse_description(val) {
        return Err(meaning::moved(refusal, at));
    }
    put_sized(Order::Little, 1, val, buf, at)
}

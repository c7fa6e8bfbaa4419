// Strings, object paths and the text of signatures among the bytes (util.rs): document 01, port order 2.
ghost use Rattle.std.specs.Prelude.{◌≡◌, ◌+◌, ◌≤◌, ◌<◌, length, take, drop, get_or};
ghost use Rattle.meaning.specs.Number.{load};
ghost use Rattle.meaning.specs.Reader.{reached_of};
ghost use Rattle.meaning.specs.ReadValue.{check_at, sized_r, read_text, read_path, read_sig};
ghost use Rattle.text.specs.Ends.{zero_test, ends_at};

use crate::BadText;
use meaning::{Fault, Length, Order, Place, Refusal};
use util::integers;

// The zero byte that ends a text.
fn terminated(buf: &[u8], stop: usize, off: usize) -> Result<Place, Refusal>
    requires { stop < length buf.now }
    ensures { result ≡ ends_at (get_or buf.now stop 0) stop off }
{
    if buf[stop] == 0 {
        Ok(Place(stop + 1))
    } else {
        Err(meaning::refuse(Fault::MissingTerminator, off))
    }
}

// A text of `len` bytes and its zero, after a length field of `width` bytes that says so.
fn sized(buf: &[u8], off: usize, width: usize, len: usize, lax: bool) -> Result<Place, Refusal>
    requires { off + width ≤ length buf.now }
    ensures { (o : Order) → len ≡ load o (take width (drop off buf.now)) →
        result ≡ reached_of (sized_r o width (zero_test lax) buf.now off) }
{
    let first = off + width;
    if buf.len() - first <= len {
        return Err(meaning::refuse(Fault::NotEnoughBytes, off));
    }
    let stop = first + len;
    match crate::check_text(&buf[first..stop]) {
        Ok(()) => terminated(buf, stop, off),
        Err(BadText::NotUtf8) => Err(meaning::refuse(Fault::InvalidUtf8, off)),
        Err(BadText::HasZero) => {
            if lax {
                terminated(buf, stop, off)
            } else {
                Err(meaning::refuse(Fault::StringContainsNullByte, off))
            }
        }
    }
}

// The place after the string at `off`.
pub fn read_string(order: Order, buf: &[u8], off: usize) -> Result<Place, Refusal>
    requires { off ≤ length buf.now }
    ensures { result ≡ reached_of (read_text order buf.now off) }
{
    if buf.len() - off < 4 {
        return Err(meaning::refuse(Fault::NotEnoughBytes, off));
    }
    let len = integers::load32(order, buf, off) as usize;
    sized(buf, off, 4, len, false)
}

// The same for the text of a signature, whose length is one byte, in either order.
pub fn read_signature_text(buf: &[u8], off: usize) -> Result<Place, Refusal>
    requires { off ≤ length buf.now }
    ensures { (o : Order) → result ≡ reached_of (read_sig o buf.now off) }
{
    if buf.len() <= off {
        return Err(meaning::refuse(Fault::NotEnoughBytes, off));
    }
    let len = buf[off] as usize;
    sized(buf, off, 1, len, true)
}

// The same for an object path.
pub fn read_path(order: Order, buf: &[u8], off: usize) -> Result<Place, Refusal>
    requires { off ≤ length buf.now }
    ensures { result ≡ reached_of (read_path order buf.now off) }
{
    let Place(next) = read_string(order, buf, off)?;
    let first = off + 4;
    let stop = next - 1;
    if crate::is_path(&buf[first..stop]) {
        Ok(Place(next))
    } else {
        Err(meaning::refuse(Fault::InvalidObjectPath, off))
    }
}

// The length of the string at `offset`, with its length field and its zero.
pub fn unmarshal_str(order: Order, offset: Place, buf: &[u8]) -> Result<Length, Refusal>
    ensures { result ≡ check_at (read_text order) buf.now offset.0 }
{
    let Place(off) = offset;
    if buf.len() < off {
        return Err(meaning::refuse(Fault::BadOffset, off));
    }
    util::taken_from(off, read_string(order, buf, off))
}

pub fn unmarshal_object_path(order: Order, offset: Place, buf: &[u8]) -> Result<Length, Refusal>
    ensures { result ≡ check_at (read_path order) buf.now offset.0 }
{
    let Place(off) = offset;
    if buf.len() < off {
        return Err(meaning::refuse(Fault::BadOffset, off));
    }
    util::taken_from(off, read_path(order, buf, off))
}

// The text of a signature only: its grammar is not looked at.
pub fn unmarshal_signature_text(offset: Place, buf: &[u8]) -> Result<Length, Refusal>
    ensures { (o : Order) → result ≡ check_at (read_sig o) buf.now offset.0 }
{
    let Place(off) = offset;
    if buf.len() < off {
        return Err(meaning::refuse(Fault::BadOffset, off));
    }
    util::taken_from(off, read_signature_text(buf, off))
}

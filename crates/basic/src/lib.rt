// Values of basic types (validate_raw.rs): document 01, port order 4.
#![tactic(auto)]

pub mod spelled;

ghost use Rattle.std.specs.Prelude.{◌≡◌, ℕ, ◌+◌, ◌-◌, ◌≤◌, ◌<◌, T, length};
ghost use Rattle.meaning.specs.Types.{Fix, Base, size as size_of};
ghost use Rattle.meaning.specs.Signature.{code};
ghost use Rattle.meaning.specs.Reader.{many, reached_of};
ghost use Rattle.meaning.specs.ReadValue.{read_fix, bare_r, base_r};
ghost use Rattle.meaning.specs.Writers.{is_alignment};
ghost use Rattle.basic.specs.Basic.{BaseCode, AnyBits};

use meaning::{Fault, Order, Place, Refusal};
use text::strings;
use util::integers;

// A number of `size` bytes of which any bits are a value.
fn fixed(buf: &[u8], off: usize, size: usize) -> Result<Place, Refusal>
    requires { off ≤ length buf.now }
    ensures { (o : Order) (c : Fix) → AnyBits c → size ≡ size_of c → result ≡ reached_of (read_fix o c buf.now off) }
{
    if buf.len() - off < size {
        Err(meaning::refuse(Fault::NotEnoughBytes, off))
    } else {
        Ok(Place(off + size))
    }
}

fn boolean(order: Order, buf: &[u8], off: usize) -> Result<Place, Refusal>
    requires { off ≤ length buf.now }
    ensures { result ≡ reached_of (read_fix order Fix.bool buf.now off) }
{
    if buf.len() - off < 4 {
        return Err(meaning::refuse(Fault::NotEnoughBytes, off));
    }
    if integers::load32(order, buf, off) < 2 {
        Ok(Place(off + 4))
    } else {
        Err(meaning::refuse(Fault::InvalidBoolean, off))
    }
}

// A basic value without its padding, by the code of its type.
pub fn bare(order: Order, k: u8, buf: &[u8], off: usize) -> Result<Place, Refusal>
    requires { off ≤ length buf.now }
    ensures { (c : Base) → k ≡ code c → result ≡ reached_of (bare_r order c buf.now off) }
{
    match k {
        b's' => strings::read_string(order, buf, off),
        b'o' => strings::read_path(order, buf, off),
        b'g' => spelled::signature_value(buf, off),
        b'b' => boolean(order, buf, off),
        _ => fixed(buf, off, types::size(k)),
    }
}

// A basic value by what the table says of its code.
fn tested(order: Order, k: u8, buf: &[u8], off: usize) -> Result<Place, Refusal>
    requires base_code { BaseCode k }
    requires inside { off ≤ length buf.now }
    ensures { (c : Base) → k ≡ code c → result ≡ reached_of (base_r order c buf.now off) }
{
    let Place(at) = util::padded(buf, off, types::align(k))?;
    bare(order, k, buf, at)
}

// A number of `size` bytes, aligned to them, of which any bits are a value.
fn number(buf: &[u8], off: usize, size: usize) -> Result<Place, Refusal>
    requires inside { off ≤ length buf.now }
    requires alignment { T (is_alignment size) }
    ensures { (o : Order) (c : Fix) → AnyBits c → size ≡ size_of c → result ≡ reached_of (base_r o (Base.fix c) buf.now off) }
{
    let Place(at) = util::padded(buf, off, size)?;
    fixed(buf, at, size)
}

// A basic value, by the code of its type. Where the code is known the table is read at one place, which the compiler does once and for all.
// `h` stands alone: with its neighbour `i` it would be a range, which is tested before every other code.
pub fn base(order: Order, k: u8, buf: &[u8], off: usize) -> Result<Place, Refusal>
    requires base_code { BaseCode k }
    requires inside { off ≤ length buf.now }
    ensures { (c : Base) → k ≡ code c → result ≡ reached_of (base_r order c buf.now off) }
{
    match k {
        b'y' => number(buf, off, types::size(b'y')),
        b'n' | b'q' => number(buf, off, types::size(b'q')),
        b'i' | b'u' => number(buf, off, types::size(b'u')),
        b'h' => number(buf, off, types::size(b'h')),
        b'x' | b't' | b'd' => number(buf, off, types::size(b't')),
        _ => tested(order, k, buf, off),
    }
}

// Basic values one by one, which fill the bytes from `first` to the end.
pub fn basics(order: Order, k: u8, buf: &[u8], first: usize) -> Result<Place, Refusal>
    requires base_code { BaseCode k }
    requires inside { first ≤ length buf.now }
    ensures { (c : Base) → k ≡ code c → result ≡ reached_of (many (length buf.now - first) (base_r order c) buf.now first) }
{
    let mut past = Place(first);
    while past.0 < buf.len() {
        past = base(order, k, buf, past.0)?;
    }
    Ok(past)
}

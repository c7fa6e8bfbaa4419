// The value reader: a value of fixed width with its kind (document 01, port order 6).
#![tactic(auto)]

ghost use Rattle.std.specs.Prelude.{◌≡◌, ◌≤◌, length};
ghost use Rattle.meaning.specs.Types.{Fix};
ghost use Rattle.meaning.specs.Signature.{code_fix};
ghost use Rattle.meaning.specs.ReadValue.{valid as valid_of, read_fix};
ghost use Rattle.meaning.specs.FixedValue.{double as double_of, fixed_value, fixed_from, read_fixed};
ghost use Rattle.read.specs.Coded.{Coded, Holds};
ghost use Rattle.read.specs.Bits.{letter_of, double_bits, bits_of};

use meaning::{Fault, FixedValue, Order, Place, Refusal};
use util::integers;

// The double that has these bits. A NaN, whose bits without the sign lie above infinity's, keeps them.
fn double(bits: u64) -> FixedValue
    ensures { result ≡ double_of bits }
{
    let size = bits % 0x8000_0000_0000_0000;
    if 0x7ff0_0000_0000_0000 < size {
        FixedValue::Nan(bits)
    } else {
        FixedValue::Double(f64::from_bits(bits))
    }
}

// The value of the type of this code that has these bits.
fn value(code: u8, bits: u64) -> FixedValue
    requires { Holds code bits }
    ensures { (c : Fix) → code ≡ code_fix c → result ≡ fixed_value c bits }
{
    match code {
        b'y' => FixedValue::Byte(bits as u8),
        b'b' => FixedValue::Boolean(bits == 1),
        b'n' => FixedValue::Int16((bits as u16).cast_signed()),
        b'q' => FixedValue::Uint16(bits as u16),
        b'i' => FixedValue::Int32((bits as u32).cast_signed()),
        b'u' => FixedValue::Uint32(bits as u32),
        b'x' => FixedValue::Int64(bits.cast_signed()),
        b't' => FixedValue::Uint64(bits),
        b'd' => double(bits),
        _ => FixedValue::UnixFd(bits as u32),
    }
}

// Of the fixed types only a Boolean can be wrong.
fn valid(code: u8, bits: u64) -> bool
    ensures { (c : Fix) → code ≡ code_fix c → result ≡ valid_of c bits }
{
    code != b'b' || bits < 2
}

// The value behind its padding.
fn bare(order: Order, at: usize, buf: &[u8], code: u8) -> Result<FixedValue, Refusal>
    requires { (at ≤ length buf.now) × Coded code }
    ensures { (c : Fix) → code ≡ code_fix c → result ≡ fixed_from c (read_fix order c buf.now at) }
{
    let width = types::size(code);
    if buf.len() - at < width {
        return Err(meaning::refuse(Fault::NotEnoughBytes, at));
    }
    let bits = integers::load(order, width, buf, at);
    if valid(code, bits) {
        Ok(value(code, bits))
    } else {
        Err(meaning::refuse(Fault::InvalidBoolean, at))
    }
}

// The value of fixed width at `offset`, whose type `sig` spells. A fixed size in the table says that the one byte is such a type.
pub fn unmarshal_fixed(
    order: Order,
    offset: Place,
    buf: &[u8],
    sig: &[u8],
) -> Result<FixedValue, Refusal>
    ensures { result ≡ read_fixed order sig.now buf.now offset.0 }
{
    if sig.len() != 1 {
        return Err(meaning::refuse(Fault::BadArgument, 0));
    }
    let code = sig[0];
    let width = types::size(code);
    if width == 0 {
        return Err(meaning::refuse(Fault::BadArgument, 0));
    }
    let off = offset.0;
    if buf.len() < off {
        return Err(meaning::refuse(Fault::BadOffset, off));
    }
    let place = util::padded(buf, off, width)?;
    bare(order, place.0, buf, code)
}

// The letter of a value's type; `N` for a NaN.
pub fn letter(v: FixedValue) -> u8
    ensures { result ≡ letter_of v }
{
    match v {
        FixedValue::Byte(_) => b'y',
        FixedValue::Boolean(_) => b'b',
        FixedValue::Int16(_) => b'n',
        FixedValue::Uint16(_) => b'q',
        FixedValue::Int32(_) => b'i',
        FixedValue::Uint32(_) => b'u',
        FixedValue::Int64(_) => b'x',
        FixedValue::Uint64(_) => b't',
        FixedValue::Double(_) => b'd',
        FixedValue::Nan(_) => b'N',
        FixedValue::UnixFd(_) => b'h',
    }
}

// A NaN stands by its bits in a case of its own, so no double that was read is one.
fn double_bits(x: f64) -> u64
    ensures { result ≡ double_bits x }
{
    if x.is_nan() { 0 } else { x.to_bits() }
}

// A value's bits, its sign carried on to all 64.
pub fn bits(v: FixedValue) -> u64
    ensures { result ≡ bits_of v }
{
    match v {
        FixedValue::Byte(n) => u64::from(n),
        FixedValue::Boolean(b) => u64::from(b),
        FixedValue::Int16(n) => i64::from(n).cast_unsigned(),
        FixedValue::Uint16(n) => u64::from(n),
        FixedValue::Int32(n) => i64::from(n).cast_unsigned(),
        FixedValue::Uint32(n) => u64::from(n),
        FixedValue::Int64(n) => n.cast_unsigned(),
        FixedValue::Uint64(n) => n,
        FixedValue::Double(x) => double_bits(x),
        FixedValue::Nan(n) => n,
        FixedValue::UnixFd(n) => u64::from(n),
    }
}

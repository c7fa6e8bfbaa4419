// A value of fixed width as text, put into a buffer that the caller lends. Each function answers the place behind its text.
ghost use Rattle.std.specs.Prelude.{◌≡◌, ◌∷◌, ◌++◌};
ghost use Rattle.text_out.specs.Puts.{Puts};
ghost use Rattle.answer_text.specs.Values.{signed_texts, double_texts, bits_texts, value_texts, fixed_texts};

use crate::{labelled, refused, spelled};
use meaning::{FixedValue, Refusal};
use text_out::{put, put_number};

// A number behind a word, with its sign.
fn signed(out: &mut [u8], at: usize, word: &[u8], n: i64) -> usize
    ensures { Puts out.old at (word.now ∷ signed_texts n) result out.new }
{
    let behind = put(out, at, word);
    if n < 0 {
        let past = put(out, behind, b"-");
        put_number(out, past, n.unsigned_abs())
    } else {
        put_number(out, behind, n.unsigned_abs())
    }
}

// 64 bits behind a word, in sixteen digits.
fn bits(out: &mut [u8], at: usize, word: &[u8], n: u64) -> usize
    ensures { Puts out.old at (word.now ∷ bits_texts n) result out.new }
{
    spelled(out, at, word, &n.to_be_bytes())
}

// The reader gives a NaN by its bits in a case of its own. One that stands here nevertheless is shown as the plainest NaN.
fn double(out: &mut [u8], at: usize, x: f64) -> usize
    ensures { Puts out.old at (double_texts x) result out.new }
{
    if x == x {
        bits(out, at, b"ok d ", x.to_bits())
    } else {
        bits(out, at, b"ok N ", 0x7ff8_0000_0000_0000)
    }
}

fn value(out: &mut [u8], at: usize, v: FixedValue) -> usize
    ensures { Puts out.old at (value_texts v) result out.new }
{
    match v {
        FixedValue::Byte(n) => labelled(out, at, b"ok y ", u64::from(n)),
        FixedValue::Boolean(b) => labelled(out, at, b"ok b ", u64::from(b)),
        FixedValue::Int16(n) => signed(out, at, b"ok n ", i64::from(n)),
        FixedValue::Uint16(n) => labelled(out, at, b"ok q ", u64::from(n)),
        FixedValue::Int32(n) => signed(out, at, b"ok i ", i64::from(n)),
        FixedValue::Uint32(n) => labelled(out, at, b"ok u ", u64::from(n)),
        FixedValue::Int64(n) => signed(out, at, b"ok x ", n),
        FixedValue::Uint64(n) => labelled(out, at, b"ok t ", n),
        FixedValue::Double(x) => double(out, at, x),
        FixedValue::Nan(n) => bits(out, at, b"ok N ", n),
        FixedValue::UnixFd(n) => labelled(out, at, b"ok h ", u64::from(n)),
    }
}

// What the value reader found: a value with its kind, or a refusal.
pub fn fixed(out: &mut [u8], at: usize, r: Result<FixedValue, Refusal>) -> usize
    ensures { Puts out.old at (fixed_texts r) result out.new }
{
    match r {
        Ok(v) => value(out, at, v),
        Err(r) => refused(out, at, r),
    }
}

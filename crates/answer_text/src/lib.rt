// Answers as text, put into a buffer that the caller lends. Each function answers the place behind its text.
// None of them is a `Display`: none can fail, and `Puts` says of each the place behind its text and every byte of the buffer (see `text_out`).
#![tactic(auto)]

pub mod fixed_text;
pub mod header_text;

ghost use Rattle.std.specs.Prelude.{[], ◌∷◌};
ghost use Rattle.text_out.specs.Digits.{bytes_text, decimal};
ghost use Rattle.text_out.specs.Puts.{Puts};
ghost use Rattle.answer_text.specs.Texts.{bad_texts, ok_texts, refused_texts, checked_texts, counted_texts, written_texts, text_texts};

use meaning::{Length, Place, Refusal};
use text_out::{put, put_bytes, put_number};

// The answer to a line that is no question.
pub fn bad(out: &mut [u8], at: usize) -> usize
    ensures { Puts out.old at bad_texts result out.new }
{
    put(out, at, b"bad")
}

// A number behind a word.
pub fn labelled(out: &mut [u8], at: usize, word: &[u8], n: u64) -> usize
    ensures { Puts out.old at (word.now ∷ decimal n ∷ []) result out.new }
{
    let behind = put(out, at, word);
    put_number(out, behind, n)
}

// Bytes behind a word.
fn spelled(out: &mut [u8], at: usize, word: &[u8], s: &[u8]) -> usize
    ensures { Puts out.old at (word.now ∷ bytes_text s.now ∷ []) result out.new }
{
    let start = put(out, at, word);
    put_bytes(out, start, s)
}

fn accepted(out: &mut [u8], at: usize, n: usize) -> usize
    ensures { Puts out.old at (ok_texts n) result out.new }
{
    labelled(out, at, b"ok ", n as u64)
}

// The position of a refusal, and its number.
pub fn refused(out: &mut [u8], at: usize, r: Refusal) -> usize
    ensures { Puts out.old at (refused_texts r) result out.new }
{
    let Refusal { fault, place } = r;
    let behind = labelled(out, at, b"no ", place.0 as u64);
    labelled(out, behind, b" ", u64::from(meaning::number(fault)))
}

// What a check found: a length, or a refusal.
pub fn checked(out: &mut [u8], at: usize, c: Result<Length, Refusal>) -> usize
    ensures { Puts out.old at (checked_texts c) result out.new }
{
    match c {
        Ok(length) => accepted(out, at, length.0),
        Err(refusal) => refused(out, at, refusal),
    }
}

// What the check of a signature found: a number of types, or a refusal.
pub fn counted(out: &mut [u8], at: usize, c: Result<usize, Refusal>) -> usize
    ensures { Puts out.old at (counted_texts c) result out.new }
{
    match c {
        Ok(n) => accepted(out, at, n),
        Err(r) => refused(out, at, r),
    }
}

// What a write came to, and the buffer as it left it.
pub fn written(out: &mut [u8], at: usize, w: Result<Place, Refusal>, buf: &[u8]) -> usize
    ensures { Puts out.old at (written_texts w buf.now) result out.new }
{
    let behind = match w {
        Ok(place) => accepted(out, at, place.0),
        Err(why) => refused(out, at, why),
    };
    spelled(out, behind, b" ", buf)
}

// The bytes of a text that was looked up.
pub fn text(out: &mut [u8], at: usize, s: &[u8]) -> usize
    ensures { Puts out.old at (text_texts s.now) result out.new }
{
    spelled(out, at, b"text ", s)
}

// Text put into a buffer that the caller lends: bytes as they are, numbers, and bytes in hexadecimal.
// Not into a `String`: no function here can fail, and each says every byte of the buffer (`Puts`); a `String` and `write!` can run out of memory.
#![tactic(auto)]

ghost use Rattle.std.specs.Prelude.{◌≡◌, [], ◌∷◌, ◌+◌, ◌*◌, ◌≤◌, ◌<◌, length};
ghost use Rattle.std.proofs.lemmas.List.Edits.{sets};
ghost use Rattle.io.specs.Digits.{hex_digit_ascii as glyph_of};
ghost use Rattle.text_out.specs.Digits.{hex_text, bytes_text, decimal};
ghost use Rattle.text_out.specs.Puts.{Puts};

use write::store;

// Puts a text at a place, and answers the place behind it.
pub fn put(out: &mut [u8], at: usize, s: &[u8]) -> usize
    ensures { Puts out.old at (s.now ∷ []) result out.new }
{
    if at <= out.len() {
        if s.len() <= out.len() - at {
            store::copy(out, at, s);
            return at + s.len();
        }
    }
    at
}

// A number's decimal digits, the fewest that hold it.
pub fn put_number(out: &mut [u8], at: usize, n: u64) -> usize
    ensures { Puts out.old at (decimal n ∷ []) result out.new }
{
    let mut text = [0u8; 20];
    let k = io::decimal(n, &mut text);
    put(out, at, &text[..k])
}

fn glyph(d: u8) -> u8
    requires { d < 16 }
    ensures { result ≡ glyph_of d }
{
    if d < 10 { 48 + d } else { 87 + d }
}

fn pair(out: &mut [u8], at: usize, s: &[u8])
    requires { at + 2 * length s.now ≤ length out.old }
    ensures { out.new ≡ sets out.old at (hex_text s.now) }
{
    let mut i = 0;
    while i < s.len() {
        let b = s[i];
        out[at + 2 * i] = glyph(b / 16);
        out[at + 2 * i + 1] = glyph(b % 16);
        i += 1;
    }
}

// Bytes in hexadecimal; no bytes are `-`.
pub fn put_bytes(out: &mut [u8], at: usize, s: &[u8]) -> usize
    ensures { Puts out.old at (bytes_text s.now ∷ []) result out.new }
{
    if s.len() == 0 {
        return put(out, at, b"-");
    }
    if at <= out.len() {
        if s.len() <= (out.len() - at) / 2 {
            pair(out, at, s);
            return at + 2 * s.len();
        }
    }
    at
}

// Bytes of a message as a terminal can show them.
ghost use Rattle.std.specs.Prelude.{◌≡◌, ◌+◌, ◌<◌, ◌≤◌, ℕ, List, [], ◌++◌, length, take, IsAscii, IsTrue};

use crate::words;
use std::marker::Model;
use std::{fmt, str};

// `count` bytes from `first` on, as far as there are any.
pub(crate) fn part(s: &[u8], first: usize, count: usize) -> &[u8] {
    let rest = &s[first.min(s.len())..];
    &rest[..count.min(rest.len())]
}

fn is_plain(b: u8) -> bool
    ensures { IsTrue result → b < 128 }
{
    matches!(b, b' '..=b'~')
}

// Each byte as a letter, with a dot for one that is none.
#[derive(Clone, Copy)]
pub(crate) struct Letters<'a>(pub(crate) &'a [u8]);

impl fmt::Display for Letters<'_> {
    fn fmt<W: fmt::Write>(&self, f: &mut fmt::Formatter<W>) -> fmt::Result {
        for b in self.0 {
            f.write_char(if is_plain(*b) { char::from(*b) } else { '.' })?;
        }
        Ok(())
    }
}

// One of the digits 0 to 9 and a to f.
fn digit(n: u8) -> u8
    requires { n < 16 }
    ensures { result < 128 }
{
    if n < 10 { b'0' + n } else { b'a' + (n - 10) }
}

// ASCII text that is gathered and put out at once: a writer takes longer over a call than over the bytes.
#[derive(Drop)]
struct Gathered {
    bytes: [u8; 256],
    end: usize,
}

// Clauses see the text.
impl Model for Gathered {
    ghost Value = { List ℕ };

    ghost view = { λ g. take g.end g.bytes };

    ghost invariant = { λ g. (g.end ≤ 256) × IsAscii (take g.end g.bytes) };
}

impl Gathered {
    fn new() -> Gathered
        ensures { result ≡ [] }
    {
        Gathered {
            bytes: [0; 256],
            end: 0,
        }
    }

    fn text(&self) -> &str
        ensures { result.now ≡ self.now }
    {
        let Ok(text) = str::from_utf8(&self.bytes[..self.end]) else {
            unreachable!();
        };
        text
    }

    fn clear(&mut self)
        ensures { self.new ≡ [] }
    {
        self.end = 0;
    }

    fn room(&self) -> usize
        ensures { result + length self.now ≡ 256 }
    {
        self.bytes.len() - self.end
    }

    fn push(&mut self, text: &[u8])
        requires ascii { IsAscii text.now }
        requires room { length self.old + length text.now ≤ 256 }
        ensures { self.new ≡ self.old ++ text.now }
    {
        let end = self.end + text.len();
        self.bytes[self.end..end].copy_from_slice(text);
        self.end = end;
    }

    // The byte where a terminal shows it as itself, and \x and two digits where not.
    fn escape(&mut self, b: u8)
        requires { length self.old + 4 ≤ 256 }
    {
        if is_plain(b) && b != b'\\' {
            self.push(&[b]);
        } else {
            self.push(&[b'\\', b'x', digit(b >> 4), digit(b & 15)]);
        }
    }
}

// Each byte that a terminal shows as itself, and \x and two digits for one that it does not.
#[derive(Clone, Copy)]
struct Escaped<'a>(&'a [u8]);

impl fmt::Display for Escaped<'_> {
    fn fmt<W: fmt::Write>(&self, f: &mut fmt::Formatter<W>) -> fmt::Result {
        let mut gathered = Gathered::new();
        for b in self.0 {
            // the longest that is shown of a byte has four
            if gathered.room() < 4 {
                f.write_str(gathered.text())?;
                gathered.clear();
            }
            gathered.escape(*b);
        }
        f.write_str(gathered.text())
    }
}

// So many bytes of a text are shown.
const SHOWN: usize = 200;

// A text, or its start and its length where it is a long one.
#[derive(Clone, Copy)]
pub(crate) struct Text<'a>(pub(crate) &'a [u8]);

impl fmt::Display for Text<'_> {
    fn fmt<W: fmt::Write>(&self, f: &mut fmt::Formatter<W>) -> fmt::Result {
        let all = self.0;
        write!(f, "{}", Escaped(part(all, 0, SHOWN)))?;
        if SHOWN < all.len() {
            let size = words::bytes(all.len() as u64);
            write!(f, " ... ({size} in all)")?;
        }
        Ok(())
    }
}

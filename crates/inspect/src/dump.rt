// The bytes around a place, sixteen a row, with the byte at the place in brackets.
ghost use Rattle.std.specs.Prelude.{◌≤◌, length};

use crate::shown::{Letters, part};
use std::io::Write;
use std::{fmt, io};

const WIDTH: usize = 16;

// A row: where it begins in the message and in the stream, its bytes, the one among its sixteen cells that is in brackets, and its letters.
#[derive(Clone, Copy)]
struct Row<'a> {
    from: usize,
    place: u64,
    bytes: &'a [u8],
    mark: Option<usize>,
}

impl Row<'_> {
    // What stands before the cell `k`.
    fn lead(&self, k: usize) -> char {
        match self.mark.and_then(|mark| k.checked_sub(mark)) {
            Some(0) => '[',
            Some(1) => ']',
            _ => ' ',
        }
    }
}

impl fmt::Display for Row<'_> {
    fn fmt<W: fmt::Write>(&self, f: &mut fmt::Formatter<W>) -> fmt::Result {
        write!(f, "{:>10}{:>10} ", self.from, self.place)?;
        // a row has all its cells, also those past the message's end
        for k in 0..WIDTH {
            f.write_char(self.lead(k))?;
            match self.bytes.get(k) {
                Some(b) => write!(f, "{b:02x}")?,
                None => f.write_str("  ")?,
            }
        }
        write!(f, "{} {}", self.lead(WIDTH), Letters(self.bytes))
    }
}

// Up to `most` rows from `start` on, as far as `last`, which lies in the message or right behind it.
fn rows(
    out: &mut impl Write,
    message: &[u8],
    first: u64,
    mark: usize,
    start: usize,
    last: usize,
    most: usize,
) -> io::Result<()>
    requires { (start ≤ last) × (last ≤ length message.now) }
{
    let count = most.min((last - start) / WIDTH + 1);
    for k in 0..count {
        let from = start + k * WIDTH;
        let row = Row {
            from,
            place: first.wrapping_add(from as u64),
            bytes: part(&message[from..], 0, WIDTH),
            mark: mark.checked_sub(from).filter(|k| *k < WIDTH),
        };
        writeln!(out, "{row}")?;
    }
    Ok(())
}

// The last byte to show: the message's last, or the place past it.
fn last_of(size: usize, mark: usize) -> usize
    requires { mark ≤ size }
    ensures { (mark ≤ result) × (result ≤ size) }
{
    mark.max(size.saturating_sub(1))
}

// The rows around the byte at `place` of a message that begins at the byte `first` of the stream. A fault at the place 0 for which no other byte
// is known may lie anywhere in the head, so more of that is shown.
pub(crate) fn place(
    out: &mut impl Write,
    message: &[u8],
    first: u64,
    place: usize,
) -> io::Result<()> {
    let mark = place.min(message.len());
    let last = last_of(message.len(), mark);
    let (start, most) = if mark < 48 {
        (0, 12)
    } else {
        (mark / WIDTH * WIDTH - 32, 5)
    };
    writeln!(out, "   message    stream")?;
    rows(out, message, first, mark, start, last, most)
}

// Runs the boundaries of integers, padding, texts and paths that stand in the file stdin, a case a line, and writes each with its answers.
// A case is a letter and bytes in hex. t: a text; p: a path; i, s, o, g: an offset, and a buffer of integers (16, 32 and 64 bits), a string,
// an object path, a signature's text; a: an alignment, an offset, a buffer with padding; w: an end, an offset and a buffer, for the readers that
// see nothing from the end on (string, path, signature, padding to 8). Where there is an order, little comes first. A line with # is a title.
#![tactic(auto)]

ghost use Rattle.std.specs.Prelude.{◌≤◌, length};

use meaning::{Length, Order, Place, Refusal};
use std::io;
use text::{BadText, strings};
use util::integers;

// How much of the input is read.
const INPUT: usize = 65_536;

// How many bytes a case has at most.
const BYTES: usize = 64;

fn put_refusal(rt: &impl Print, r: Refusal) -> io::Result<()> {
    let Refusal { fault, place } = r;
    print!(rt; " no {} at {}", meaning::number(fault), place.0)
}

fn put_checked(rt: &impl Print, c: Result<Length, Refusal>) -> io::Result<()> {
    match c {
        Ok(length) => print!(rt; " ok {}", length.0),
        Err(r) => put_refusal(rt, r),
    }
}

fn put_reached(rt: &impl Print, c: Result<Place, Refusal>) -> io::Result<()> {
    match c {
        Ok(place) => print!(rt; " to {}", place.0),
        Err(r) => put_refusal(rt, r),
    }
}

fn put_integer(rt: &impl Print, i: Result<u64, Refusal>) -> io::Result<()> {
    match i {
        Ok(n) => print!(rt; " {n}")?,
        Err(r) => put_refusal(rt, r)?,
    }
    rt.print(",")
}

fn integers(rt: &impl Print, order: Order, off: Place, buf: &[u8]) -> io::Result<()> {
    put_integer(rt, integers::parse_u16(order, off, buf))?;
    put_integer(rt, integers::parse_u32(order, off, buf))?;
    put_integer(rt, integers::parse_u64(order, off, buf))
}

fn both_orders<F: Fn(Order) -> Result<Length, Refusal>>(rt: &impl Print, read: F) -> io::Result<()>
    requires { F.IsAlwaysCallable read }
{
    put_checked(rt, read(Order::Little))?;
    rt.print(",")?;
    put_checked(rt, read(Order::Big))
}

// What the readers see of a buffer up to its end, from an offset before that.
fn windows(rt: &impl Print, end: usize, off: usize, buf: &[u8]) -> io::Result<()> {
    if buf.len() < end || end < off {
        return Ok(());
    }
    let seen = &buf[..end];
    put_reached(rt, strings::read_string(Order::Little, seen, off))?;
    rt.print(",")?;
    put_reached(rt, strings::read_path(Order::Little, seen, off))?;
    rt.print(",")?;
    put_reached(rt, strings::read_signature_text(seen, off))?;
    rt.print(",")?;
    put_reached(rt, util::padded(seen, off, 8))
}

fn check_text(rt: &impl Print, s: &[u8]) -> io::Result<()> {
    rt.print(match text::check_text(s) {
        Ok(()) => " fine",
        Err(BadText::NotUtf8) => " not UTF-8",
        Err(BadText::HasZero) => " has a zero",
    })
}

fn is_path(rt: &impl Print, s: &[u8]) -> io::Result<()> {
    rt.print(if text::is_path(s) { " yes" } else { " no" })
}

// A case by its letter; one without the numbers that it takes has no answer. Any letter that is not listed is a `w`.
fn run(rt: &impl Print, kind: u8, s: &[u8]) -> io::Result<()> {
    match (kind, s) {
        (b't', _) => check_text(rt, s),
        (b'p', _) => is_path(rt, s),
        (b'i', [off, buf @ ..]) => {
            let off = Place(usize::from(*off));
            integers(rt, Order::Little, off, buf)?;
            integers(rt, Order::Big, off, buf)
        }
        (b's', [off, buf @ ..]) => {
            let off = Place(usize::from(*off));
            both_orders(rt, |order| strings::unmarshal_str(order, off, buf))
        }
        (b'o', [off, buf @ ..]) => {
            let off = Place(usize::from(*off));
            both_orders(rt, |order| strings::unmarshal_object_path(order, off, buf))
        }
        (b'g', [off, buf @ ..]) => {
            let off = Place(usize::from(*off));
            put_checked(rt, strings::unmarshal_signature_text(off, buf))
        }
        (b'a', [align, off, buf @ ..]) => {
            let off = Place(usize::from(*off));
            put_checked(rt, util::align_offset(usize::from(*align), off, buf))
        }
        (_, [end, off, buf @ ..]) => windows(rt, usize::from(*end), usize::from(*off), buf),
        _ => Ok(()),
    }
}

fn case(rt: &impl Print, line: &[u8]) -> io::Result<()> {
    rt.write_all(line)?;
    let Some(kind) = line.first().copied().filter(|kind| *kind != b'#') else {
        return Ok(());
    };
    let mut bytes = [0u8; BYTES];
    let Some(n) = question_lines::bytes_of(question_lines::tail(line), &mut bytes) else {
        return Ok(());
    };
    rt.print(":")?;
    run(rt, kind, question_lines::first(&bytes, n))
}

// The last case may be without a line end, but not empty.
fn cases(rt: &impl Print, input: &[u8]) -> io::Result<()> {
    let mut start = 0;
    // a `while`: each turn goes on where the case before has ended
    while start < input.len() {
        let end = question_lines::find(input, start, input.len(), b'\n');
        case(rt, &input[start..end])?;
        rt.print("\n")?;
        start = end + 1;
    }
    Ok(())
}

// All of the input is read before anything is written.
fn main(rt: HostRuntime) -> io::Result<()> {
    let mut input = [0u8; INPUT];
    let n = question_lines::read_full(&mut rt.stdin(), &mut input)?;
    cases(&rt, question_lines::first(&input, n))
}

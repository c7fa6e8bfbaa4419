// A line as the words of a question, and its answer. Each function that answers gives the place behind its text, or none where the words are no
// question. Orders, numbers and codes come first: no byte is spelled of a line that is none.
use answer_text::{fixed_text, header_text};
use meaning::{Order, Place};
use question_lines::{WORDS, number_of};
use stream::Next;
use unmarshal::check_message;
use write::texts;

fn place_of(word: &[u8]) -> Option<Place> {
    Some(Place(number_of(word)? as usize))
}

fn order_of(word: &[u8]) -> Option<Order> {
    match word {
        b"l" => Some(Order::Little),
        b"B" => Some(Order::Big),
        _ => None,
    }
}

// A code above 255 is no field's, as 0 is none.
fn code_of(word: &[u8]) -> Option<u8> {
    Some(u8::try_from(number_of(word)?).unwrap_or(0))
}

// The bytes that a word spells, in the front of a buffer that is lent.
fn spelled<'a>(word: &[u8], buf: &'a mut [u8]) -> Option<&'a [u8]> {
    let n = question_lines::bytes_of(word, buf)?;
    Some(question_lines::first(buf, n))
}

// The same, to be written into.
fn spelled_mut<'a>(word: &[u8], buf: &'a mut [u8]) -> Option<&'a mut [u8]> {
    let n = question_lines::bytes_of(word, buf)?;
    Some(&mut buf[..n])
}

fn say_next(buf: &[u8], out: &mut [u8], at: usize) -> usize {
    match stream::next_message(buf) {
        Next::Whole(header) => answer_text::labelled(out, at, b"whole ", header.length.0 as u64),
        Next::Cut(length) => answer_text::labelled(out, at, b"cut ", length.0 as u64),
        Next::Refused(refusal) => answer_text::refused(out, at, refusal),
    }
}

// Answers a question about bytes; any other may be one of a write.
fn say(
    words: &[&[u8]],
    text: &mut [u8],
    buf: &mut [u8],
    out: &mut [u8],
    at: usize,
) -> Option<usize> {
    Some(match words {
        [b"sig", sig] => {
            answer_text::counted(out, at, signature::validate_signature(spelled(sig, buf)?))
        }
        [b"message", message] => {
            answer_text::checked(
                out,
                at,
                check_message::check_message(spelled(message, buf)?),
            )
        }
        [b"next", bytes] => say_next(spelled(bytes, buf)?, out, at),
        [b"header", message] => {
            header_text::header(out, at, unmarshal::unmarshal_header(spelled(message, buf)?))
        }
        [b"field", code, message, fallback] => {
            let code = code_of(code)?;
            let (message, fallback) = (spelled(message, text)?, spelled(fallback, buf)?);
            answer_text::text(out, at, lookup::lookup(message, code, fallback))
        }
        [b"value", order, place, sig, bytes] => {
            let (order, place) = (order_of(order)?, place_of(place)?);
            let (sig, bytes) = (spelled(sig, text)?, spelled(bytes, buf)?);
            let checked = validate_raw::validate_marshalled(order, place, bytes, sig);
            answer_text::checked(out, at, checked)
        }
        [b"fixed", order, place, sig, bytes] => {
            let (order, place) = (order_of(order)?, place_of(place)?);
            let (sig, bytes) = (spelled(sig, text)?, spelled(bytes, buf)?);
            fixed_text::fixed(out, at, read::unmarshal_fixed(order, place, bytes, sig))
        }
        _ => say_text(words, text, buf, out, at)?,
    })
}

// Answers a question of the write of a text into the bytes that its last word spells; any other may be one of a number.
fn say_text(
    words: &[&[u8]],
    text: &mut [u8],
    buf: &mut [u8],
    out: &mut [u8],
    at: usize,
) -> Option<usize> {
    Some(match words {
        [b"wstr", order, place, string, bytes] => {
            let (order, place) = (order_of(order)?, place_of(place)?);
            let (string, bytes) = (spelled(string, text)?, spelled_mut(bytes, buf)?);
            let written = texts::write_string(string, order, bytes, place);
            answer_text::written(out, at, written, bytes)
        }
        [b"wsig", place, sig, bytes] => {
            let place = place_of(place)?;
            let (sig, bytes) = (spelled(sig, text)?, spelled_mut(bytes, buf)?);
            let written = texts::write_signature(sig, bytes, place);
            answer_text::written(out, at, written, bytes)
        }
        _ => say_number(words, buf, out, at)?,
    })
}

// The same of a number, or of padding.
fn say_number(words: &[&[u8]], buf: &mut [u8], out: &mut [u8], at: usize) -> Option<usize> {
    Some(match words {
        [b"pad", place, align, bytes] => {
            let (place, align) = (place_of(place)?, number_of(align)? as usize);
            let bytes = spelled_mut(bytes, buf)?;
            let written = write::pad_to_align(align, bytes, place);
            answer_text::written(out, at, written, bytes)
        }
        [b"w16", order, place, n, bytes] => {
            let (order, place) = (order_of(order)?, place_of(place)?);
            let n = u16::try_from(number_of(n)?).ok()?;
            let bytes = spelled_mut(bytes, buf)?;
            let written = write::write_u16(n, order, bytes, place);
            answer_text::written(out, at, written, bytes)
        }
        [b"w32", order, place, n, bytes] => {
            let (order, place) = (order_of(order)?, place_of(place)?);
            let n = u32::try_from(number_of(n)?).ok()?;
            let bytes = spelled_mut(bytes, buf)?;
            let written = write::write_u32(n, order, bytes, place);
            answer_text::written(out, at, written, bytes)
        }
        [b"w64", order, place, n, bytes] => {
            let (order, place, n) = (order_of(order)?, place_of(place)?, number_of(n)?);
            let bytes = spelled_mut(bytes, buf)?;
            let written = write::write_u64(n, order, bytes, place);
            answer_text::written(out, at, written, bytes)
        }
        _ => return None,
    })
}

// Puts the answer to a line, and gives the place behind it. A line that is no question is answered by bad.
pub(crate) fn answer(
    line: &[u8],
    text: &mut [u8],
    buf: &mut [u8],
    out: &mut [u8],
    at: usize,
) -> usize {
    let (words, count) = question_lines::words(line);
    match say(&words[..count.min(WORDS)], text, buf, out, at) {
        Some(behind) => behind,
        None => answer_text::bad(out, at),
    }
}

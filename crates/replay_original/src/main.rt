// Replays a sample of the original crate's answers. Each line of the input is
//   value l|B OFFSET SIG BYTES => ANSWER => ROWS        sig BYTES => ANSWER => ROWS        message BYTES => ANSWER => ROWS
// with the crate's answer, `ok LENGTH`, `no POSITION NUMBER` or `stops`; a position that the crate does not give is `-`. The line of the output
// says whether the library answers the same. compare/run --sample made input and output by asking the crate: `differs` stands in the output
// exactly where rows of docs/DIFFERENCES.md stand behind a question, and `same` where there is `-`.
#![tactic(auto)]

use meaning::{Length, Order, Place, Refusal};
use question_lines::WORDS;
use std::io;
use unmarshal::check_message;

// How much of the input is read.
const INPUT: usize = 393_216;

// How many bytes a word spells at most.
const BYTES: usize = 1024;

// What the library answers: a length or a number of types; or a refusal.
type Said = Result<u64, Refusal>;

fn checked(c: Result<Length, Refusal>) -> Said {
    match c {
        Ok(length) => Ok(length.0 as u64),
        Err(r) => Err(r),
    }
}

fn counted(c: Result<usize, Refusal>) -> Said {
    match c {
        Ok(n) => Ok(n as u64),
        Err(r) => Err(r),
    }
}

// The bytes that a word spells.
fn spelled<'a>(word: &[u8], buf: &'a mut [u8; BYTES]) -> Option<&'a [u8]> {
    let n = question_lines::bytes_of(word, buf)?;
    Some(question_lines::first(buf, n))
}

fn of_signature(word: &[u8]) -> Option<Said> {
    let mut sig = [0u8; BYTES];
    Some(counted(signature::validate_signature(spelled(word, &mut sig)?)))
}

fn of_message(word: &[u8]) -> Option<Said> {
    let mut buf = [0u8; BYTES];
    Some(checked(check_message::check_message(spelled(word, &mut buf)?)))
}

// An offset, a signature and bytes.
fn of_value(order: Order, offset: &[u8], sig: &[u8], value: &[u8]) -> Option<Said> {
    let offset = question_lines::number_of(offset)?;
    let mut bytes = [0u8; BYTES];
    let sig = spelled(sig, &mut bytes)?;
    let mut buf = [0u8; BYTES];
    let value = spelled(value, &mut buf)?;
    Some(checked(validate_raw::validate_marshalled(order, Place(offset as usize), value, sig)))
}

fn is_number(word: &[u8], n: u64) -> bool {
    question_lines::number_of(word) == Some(n)
}

// Whether the crate's words say the same; a position that it does not give is `-`.
fn agrees(said: Said, words: &[&[u8]]) -> bool {
    match (said, words) {
        (Ok(n), [[b'o', ..], m, ..]) => is_number(m, n),
        (Err(r), [[b'n', ..], position, number, ..]) => {
            let Refusal { fault, place } = r;
            is_number(number, u64::from(meaning::number(fault)))
                && (position.first() == Some(&b'-') || is_number(position, place.0 as u64))
        }
        _ => false,
    }
}

// Whether the words of a line are a question, and behind it and an arrow the crate's words that say what the library says.
fn is_same(words: &[&[u8]]) -> bool {
    let (said, answer) = match words {
        [[b's', ..], sig, _, answer @ ..] => (of_signature(sig), answer),
        [[b'm', ..], message, _, answer @ ..] => (of_message(message), answer),
        [_, [b'B', ..], offset, sig, value, _, answer @ ..] => {
            (of_value(Order::Big, offset, sig, value), answer)
        }
        [_, _, offset, sig, value, _, answer @ ..] => {
            (of_value(Order::Little, offset, sig, value), answer)
        }
        _ => return false,
    };
    match said {
        Some(said) => agrees(said, answer),
        None => false,
    }
}

fn replay_line(line: &[u8]) -> &'static [u8] {
    let (words, count) = question_lines::words(line);
    if is_same(&words[..count.min(WORDS)]) {
        b"same\n"
    } else {
        b"differs\n"
    }
}

// A line that does not end is none.
fn replay_lines(rt: &impl Print, input: &[u8]) -> io::Result<()> {
    let mut start = 0;
    let mut end = question_lines::find(input, 0, input.len(), b'\n');
    // a `while`: each turn goes on where the line before has ended
    while end < input.len() {
        rt.write_all(replay_line(&input[start..end]))?;
        start = end + 1;
        end = question_lines::find(input, start, input.len(), b'\n');
    }
    Ok(())
}

fn main(rt: HostRuntime) -> io::Result<()> {
    let mut input = vec![in rt.alloc(); 0u8; INPUT]?;
    let n = question_lines::read_full(&mut rt.stdin(), &mut input)?;
    replay_lines(&rt, question_lines::first(&input, n))
}

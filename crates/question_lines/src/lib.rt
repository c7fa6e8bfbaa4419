// What programs do with their input: a line of text taken apart into words, numbers and bytes in hexadecimal, and the parts of a buffer.
#![tactic(auto)]

ghost use Rattle.std.specs.Prelude.{◌≡◌, true, cond, ◌+◌, ◌/◌, ◌%◌, ◌≤◌, ◌<◌, Some, None, ltb, length, drop, take, map, IfOk};
ghost use Rattle.std.specs.Io.KnownBytes.{Consumes, IsAtEnd};
ghost use Rattle.std.specs.List.{between};
ghost use Rattle.std.proofs.lemmas.List.Edits.{sets};
ghost use Rattle.question_lines.specs.Digits.{digit_of, all_digits, pairs};
ghost use Rattle.question_lines.specs.Words.{index_of, word_end, occurrences, words_of, number_of, taken_of, moved_down};

use std::io;
use std::io::Read;

// Reads until the buffer is full or the input ends, and says how many bytes it put at the front.
pub fn read_full<R: Read>(reader: &mut R, buf: &mut [u8]) -> io::Result<usize>
    ensures bound { IfOk result (λ n. n ≤ length buf.new) }
    ensures bytes { IfOk result (λ n. Consumes (R.remaining reader.old) (R.remaining reader.new) (take n buf.new)) }
    ensures end { IfOk result (λ n. n < length buf.new → IsAtEnd (R.remaining reader.new)) }
{
    let mut done = 0;
    // a `while`: `done` goes up by what each read gives, and no method of std's `Read` says how far it came
    while done < buf.len() {
        let n = reader.read(&mut buf[done..])?;
        if n == 0 {
            break;
        }
        done += n;
    }
    Ok(done)
}

// The first place from `from` on at which `b` stands, if that is before `to`; else `to`.
pub fn find(s: &[u8], from: usize, to: usize, b: u8) -> usize
    requires ordered { from ≤ to }
    requires within { to ≤ length s.now }
    ensures place { result ≡ from + index_of b (between from to s.now) }
    ensures low { from ≤ result }
    ensures high { result ≤ to }
{
    match s[from..to].iter().position(|x| *x == b) {
        Some(i) => from + i,
        None => to,
    }
}

// The first word: up to the first space, or all.
pub fn head(s: &[u8]) -> &[u8]
    ensures { result.now ≡ take (word_end s.now) s.now }
{
    let end = find(s, 0, s.len(), b' ');
    &s[..end]
}

// What follows the first space.
pub fn tail(s: &[u8]) -> &[u8]
    ensures { result.now ≡ drop (word_end s.now + 1) s.now }
{
    let gap = find(s, 0, s.len(), b' ');
    if gap < s.len() {
        let next = gap + 1;
        &s[next..]
    } else {
        &s[gap..]
    }
}

// How many of the bytes are `b`.
pub fn count(s: &[u8], b: u8) -> usize
    ensures { result ≡ occurrences b s.now }
{
    s.iter().filter(|x| **x == b).count()
}

// The first word, and what follows the space behind it, of a text with so many spaces. One with none is a word as it is, so that a long word is
// not searched again.
fn split_word(s: &[u8], gaps: usize) -> (&[u8], &[u8])
    requires { gaps ≡ occurrences 32 s.now }
    ensures word { result.0.now ≡ take (word_end s.now) s.now }
    ensures rest { result.1.now ≡ drop (word_end s.now + 1) s.now }
{
    if gaps == 0 {
        (s, first(s, 0))
    } else {
        (head(s), tail(s))
    }
}

// So many words of a line are given. No question has more than five, and where its answer is told, an arrow and up to three words stand behind it.
pub const WORDS: usize = 9;

// The first words of a line, and how many words it has: one more than spaces. Past the last word each is empty.
pub fn words(line: &[u8]) -> ([&[u8]; WORDS], usize)
    ensures words { map (λ w. w.now) result.0 ≡ words_of WORDS line.now }
    ensures number { result.1 ≡ occurrences 32 line.now + 1 }
{
    let gaps = count(line, b' ');
    let mut words = [first(line, 0); WORDS];
    let mut rest = line;
    for i in 0..WORDS {
        let (word, behind) = split_word(rest, gaps.saturating_sub(i));
        words[i] = word;
        rest = behind;
    }
    (words, gaps + 1)
}

// What a digit stands for, up to 15 for `f`.
fn digit(c: u8) -> Option<u8>
    ensures { result ≡ cond (ltb (digit_of c) 16) (Some (digit_of c)) None }
{
    match c {
        b'0'..=b'9' => Some(c - b'0'),
        b'a'..=b'f' => Some(c - b'a' + 10),
        _ => None,
    }
}

// A decimal number of 64 bits.
pub fn number_of(s: &[u8]) -> Option<u64>
    ensures { result ≡ number_of s.now }
{
    if s.is_empty() {
        return None;
    }
    let mut n: u64 = 0;
    for c in s {
        let d = (*c as char).to_digit(10)?;
        n = n.checked_mul(10)?.checked_add(u64::from(d))?;
    }
    Some(n)
}

// Whether each is a digit of a number in hexadecimal.
fn all_digits(s: &[u8]) -> bool
    ensures { result ≡ all_digits 16 s.now }
{
    s.iter().all(|c| digit(*c).is_some())
}

// What a byte that is a digit stands for. Without a branch: figures and letters come in no order that a processor could learn.
fn digit_value(c: u8) -> u8
    requires { digit_of c < 16 }
    ensures value { result ≡ digit_of c }
    ensures small { result < 16 }
{
    c % 16 + c / 64 * 9
}

// The bytes that pairs of digits spell, put at the front of `out`.
fn unpair(s: &[u8], out: &mut [u8])
    requires { (length s.now % 2 ≡ 0) × (length s.now / 2 ≤ length out.old) × (all_digits 16 s.now ≡ true) }
    ensures { out.new ≡ sets out.old 0 (pairs s.now) }
{
    for (i, [a, b]) in s.as_chunks::<2>().0.iter().enumerate() {
        out[i] = digit_value(*a) * 16 + digit_value(*b);
    }
}

// The bytes that a word spells in hexadecimal, put at the front of `out`; `-` spells none.
pub fn bytes_of(s: &[u8], out: &mut [u8]) -> Option<usize>
    ensures value { result ≡ (taken_of s.now out.old).answer }
    ensures out_after { out.new ≡ (taken_of s.now out.old).after }
{
    if s == b"-".as_slice() {
        return Some(0);
    }
    let size = s.len() / 2;
    if s.is_empty() || s.len() % 2 != 0 || out.len() < size || !all_digits(s) {
        return None;
    }
    unpair(s, out);
    Some(size)
}

// The first bytes of a buffer; all of it where it has fewer.
pub fn first(s: &[u8], n: usize) -> &[u8]
    ensures { result.now ≡ take n s.now }
{
    &s[..n.min(s.len())]
}

// Moves the bytes from one place to another to the front.
pub fn move_down(s: &mut [u8], from: usize, to: usize)
    requires { (from ≤ to) × (to ≤ length s.old) }
    ensures { s.new ≡ moved_down from to s.old }
{
    s.copy_within(from..to, 0);
}

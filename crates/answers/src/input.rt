// Standard input taken apart into lines, each answered by a line of standard output.
ghost use Rattle.std.specs.Prelude.{◌≡◌, ℕ, ◌≤◌, length, Some, Ok, IfOk};

use crate::questions;
use std::alloc::{AllocError, Global};
use std::io;
use std::io::Read;

// Lines of up to 393,215 bytes are held: a longer one is answered by bad before it ends. So no word of a line spells more than 196,607 bytes, and
// its answer, at most some hundred bytes longer than itself, fits in half the output.
const INPUT: usize = 393_216;

const BYTES: usize = 196_608;

const OUTPUT: usize = 1_048_576;

// What answering needs: two buffers for the bytes of words, and the answers that are not written yet, up to `at`. They are made before the first
// read, and nothing is allocated after that, so that no line can run out of memory.
#[derive(Drop)]
struct Answers {
    text: Vec<u8>,
    buf: Vec<u8>,
    out: Vec<u8>,
    at: usize,
}

impl Answers {
    fn new(alloc: Global) -> Result<Answers, AllocError> {
        Ok(Answers {
            text: vec![in alloc; 0u8; BYTES]?,
            buf: vec![in alloc; 0u8; BYTES]?,
            out: vec![in alloc; 0u8; OUTPUT]?,
            at: 0,
        })
    }

    fn flush(&mut self, rt: &impl Print) -> io::Result<()> {
        rt.write_all(question_lines::first(&self.out, self.at))?;
        self.at = 0;
        Ok(())
    }

    // Answers a line. The answers before it are written where they come to more than half of the output, so that its own has the other half.
    fn answer(&mut self, rt: &impl Print, line: &[u8]) -> io::Result<()> {
        if self.out.len() / 2 < self.at {
            self.flush(rt)?;
        }
        let behind = questions::answer(line, &mut self.text, &mut self.buf, &mut self.out, self.at);
        self.at = text_out::put(&mut self.out, behind, b"\n");
        Ok(())
    }

    // A line that is too long is answered before it ends.
    fn too_long(&mut self, rt: &impl Print) -> io::Result<()> {
        let behind = answer_text::bad(&mut self.out, self.at);
        self.at = text_out::put(&mut self.out, behind, b"\n");
        self.flush(rt)
    }
}

// What a block leaves, where the input goes on: so many bytes of a line, at the front of the buffer; or a line that is too long, to be skipped to
// its end.
#[derive(Clone, Copy)]
enum Rest {
    Held(usize),
    TooLong,
}

// Answers each line that ends in a block, writes the answers out, and says where what is left begins.
fn answer_lines(rt: &impl Print, block: &[u8], answers: &mut Answers) -> io::Result<usize>
    ensures { IfOk result (λ start. start ≤ length block.now) }
{
    let mut start = 0;
    let mut end = question_lines::find(block, 0, block.len(), b'\n');
    // a `while`: each turn goes on where the line before has ended
    while end < block.len() {
        answers.answer(rt, &block[start..end])?;
        start = end + 1;
        end = question_lines::find(block, start, block.len(), b'\n');
    }
    answers.flush(rt)?;
    Ok(start)
}

// The input may end in a line without a line end.
fn last_line(rt: &impl Print, line: &[u8], answers: &mut Answers) -> io::Result<()> {
    if line.is_empty() {
        return Ok(());
    }
    answers.answer(rt, line)?;
    answers.flush(rt)
}

// Brings the bytes from `start` to `n`, of a line that goes on, to the front, and says how many they are.
fn keep(input: &mut [u8], start: usize, n: usize) -> usize
    requires { (start ≤ n) × (n ≤ length input.old) }
    ensures { result ≤ n }
{
    question_lines::move_down(input, start, n);
    n - start
}

// Goes on after the line that is skipped, if it ends in this block.
fn skip(input: &mut [u8], n: usize) -> Option<Rest>
    requires { n ≤ length input.old }
    ensures { (k : ℕ) → result ≡ Some (Rest.Held k) → k ≤ n }
{
    let end = question_lines::find(input, 0, n, b'\n');
    if end < n {
        Some(Rest::Held(keep(input, end + 1, n)))
    } else if n == input.len() {
        Some(Rest::TooLong)
    } else {
        None
    }
}

// Answers what ends among the first `n` bytes. A block that does not fill the buffer is the last.
fn block(
    rt: &impl Print,
    input: &mut [u8],
    n: usize,
    answers: &mut Answers,
) -> io::Result<Option<Rest>>
    requires { n ≤ length input.old }
    ensures { (k : ℕ) → result ≡ Ok (Some (Rest.Held k)) → k ≤ n }
{
    let start = answer_lines(rt, &input[..n], answers)?;
    if n < input.len() {
        last_line(rt, &input[start..n], answers)?;
        return Ok(None);
    }
    if start == 0 {
        answers.too_long(rt)?;
        return Ok(Some(Rest::TooLong));
    }
    Ok(Some(Rest::Held(keep(input, start, n))))
}

// Reads a block behind the bytes that are held, and answers it.
fn turn(
    rt: &impl Print,
    reader: &mut impl Read,
    rest: Rest,
    input: &mut [u8],
    answers: &mut Answers,
) -> io::Result<Option<Rest>>
    requires { (k : ℕ) → rest ≡ Rest.Held k → k ≤ length input.old }
    ensures { (k : ℕ) → result ≡ Ok (Some (Rest.Held k)) → k ≤ length input.new }
{
    match rest {
        Rest::Held(held) => {
            let n = held + question_lines::read_full(reader, &mut input[held..])?;
            block(rt, input, n, answers)
        }
        Rest::TooLong => {
            let n = question_lines::read_full(reader, input)?;
            Ok(skip(input, n))
        }
    }
}

// Nothing says that the input ends, so the turns are counted.
fn run(
    rt: &impl Print,
    reader: &mut impl Read,
    input: &mut [u8],
    answers: &mut Answers,
) -> io::Result<()> {
    let mut rest = Rest::Held(0);
    'turns: for _ in 0..u64::MAX {
        match turn(rt, reader, rest, input, answers)? {
            Some(left) => rest = left,
            None => break,
        }
    }
    Ok(())
}

// All of the input, to its end.
pub(crate) fn answer_input(
    rt: &(impl Print + AllocGlobal),
    reader: &mut impl Read,
) -> io::Result<()> {
    let mut input = vec![in rt.alloc(); 0u8; INPUT]?;
    let mut answers = Answers::new(rt.alloc())?;
    run(rt, reader, &mut input, &mut answers)
}

// Goes over a stream, message by message.
ghost use Rattle.std.specs.Prelude.{◌≤◌, length};

use crate::buffer::Held;
use crate::says;
use crate::says::Passed;
use crate::shown::part;
use meaning::{Header, Length, Refusal};
use std::io;
use std::io::{Read, Write};
use std::ops::ControlFlow;
use stream::Next;

#[derive(Drop)]
pub(crate) struct Inspector<R, W> {
    reader: R,
    out: W,
    held: Held,
    passed: Passed,
}

impl<R: Read, W: Write> Inspector<R, W> {
    pub(crate) fn new(reader: R, out: W, held: Held) -> Inspector<R, W> {
        Inspector {
            reader,
            out,
            held,
            passed: Passed::default(),
        }
    }

    // Shows a message or reads once in each turn. Nothing says that the stream ends, so the turns are counted.
    pub(crate) fn run(&mut self) -> io::Result<()> {
        for _ in 0..u64::MAX {
            match stream::next_message(self.held.bytes()) {
                Next::Whole(header) => self.whole(header)?,
                Next::Cut(Length(size)) => {
                    if self.held.room() < size {
                        return self.beyond(size);
                    }
                    if self.read(size)?.is_break() {
                        return Ok(());
                    }
                }
                Next::Refused(refusal) => return self.refused(refusal),
            }
        }
        Ok(())
    }

    // A whole message: its bytes are taken.
    fn whole(&mut self, header: Header) -> io::Result<()>
        requires { header.length.0 ≤ length self.old.held }
    {
        let Length(length) = header.length;
        says::head(&mut self.out, self.passed)?;
        says::whole(&mut self.out, self.held.bytes(), header)?;
        self.held.take(length);
        self.passed.add(length);
        self.out.flush()
    }

    // Reads once, so that messages are shown as they come. Where the stream ends, it prints the last lines, and the run breaks off; the message
    // that is held states `size`. A read that fails is not taken for the end.
    fn read(&mut self, size: usize) -> io::Result<ControlFlow<()>> {
        let read = self.held.read(&mut self.reader);
        let there = self.held.bytes().len() as u64;
        match read {
            Ok(0) => self.ended(there, size)?,
            Ok(_) => return Ok(ControlFlow::Continue(())),
            Err(_) => {
                self.ended(there, size)?;
                writeln!(self.out, "READING FAILED: more may follow")?;
            }
        }
        self.out.flush()?;
        Ok(ControlFlow::Break(()))
    }

    // The stream ends after `there` bytes of a message that states `size`, or where one would begin.
    fn ended(&mut self, there: u64, size: usize) -> io::Result<()> {
        if there != 0 {
            says::head(&mut self.out, self.passed)?;
            says::cut(&mut self.out, there, size)?;
        }
        says::ended(&mut self.out, self.passed, there)
    }

    // A refused message, shown as far as it states and as it is there. The rest of the stream is counted.
    fn refused(&mut self, refusal: Refusal) -> io::Result<()> {
        let held = self.held.bytes();
        let stated = part(held, 0, stream::stated_size(held));
        says::head(&mut self.out, self.passed)?;
        says::refused(&mut self.out, self.passed, stated, refusal)?;
        self.out.flush()?;
        let left = self.held.drain(&mut self.reader);
        says::stopped(&mut self.out, self.passed, left)?;
        self.out.flush()
    }

    // A message that states more than can be held. It is too large only if the stream has all of it.
    fn beyond(&mut self, size: usize) -> io::Result<()> {
        let left = self.held.drain(&mut self.reader);
        if left < size as u64 {
            self.ended(left, size)?;
        } else {
            says::head(&mut self.out, self.passed)?;
            says::too_large(&mut self.out, size, self.held.room())?;
            says::stopped(&mut self.out, self.passed, left)?;
        }
        self.out.flush()
    }
}

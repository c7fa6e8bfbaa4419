// The bytes of the stream that were read and not yet taken.
ghost use Rattle.std.specs.Prelude.{◌≡◌, ◌+◌, ◌≤◌, ℕ, List, [], length, take, drop, slice_range, vec_len, IfOk, OnErr};

use std::alloc::{AllocError, Global};
use std::io;
use std::io::Read;
use std::marker::Model;

// Those from `start` to `end` of a buffer that has room for the longest message, and keeps its length, so that a read goes straight into it.
#[derive(Drop)]
pub(crate) struct Held {
    buffer: Vec<u8>,
    start: usize,
    end: usize,
}

// Clauses see the bytes that are held.
impl Model for Held {
    ghost Value = { List ℕ };

    ghost view = { λ h. slice_range h.buffer.items h.start h.end };

    ghost invariant = { λ h. (h.start ≤ h.end) × (h.end ≤ vec_len h.buffer) };
}

impl Held {
    pub(crate) fn new(alloc: Global, room: usize) -> Result<Held, AllocError>
        ensures { IfOk result (λ held. held ≡ []) }
    {
        Ok(Held {
            buffer: vec![in alloc; 0; room]?,
            start: 0,
            end: 0,
        })
    }

    pub(crate) fn bytes(&self) -> &[u8]
        ensures { result.now ≡ self.now }
    {
        &self.buffer[self.start..self.end]
    }

    // How many bytes can be held.
    pub(crate) fn room(&self) -> usize {
        self.buffer.len()
    }

    // Lets go of the first `n` bytes.
    pub(crate) fn take(&mut self, n: usize)
        requires { n ≤ length self.old }
        ensures { self.new ≡ drop n self.old }
    {
        self.start += n;
    }

    // Reads once, behind the bytes that are held, which are brought to the front before.
    pub(crate) fn read(&mut self, reader: &mut impl Read) -> io::Result<usize>
        ensures kept { IfOk result (λ n. take (length self.old) self.new ≡ self.old) }
        ensures more { IfOk result (λ n. length self.new ≡ length self.old + n) }
        ensures err { OnErr result (self.new ≡ self.old) }
    {
        if self.start != 0 {
            self.buffer.copy_within(self.start..self.end, 0);
            self.end -= self.start;
            self.start = 0;
        }
        let n = reader.read(&mut self.buffer[self.end..])?;
        self.end += n;
        Ok(n)
    }

    // How many bytes are held and follow in the stream; none is held any more.
    pub(crate) fn drain(&mut self, reader: &mut impl Read) -> u64
        ensures { self.new ≡ [] }
    {
        let held = self.end - self.start;
        self.start = 0;
        self.end = 0;
        count(reader, &mut self.buffer).wrapping_add(held as u64)
    }
}

// How many bytes follow in the stream; a read that fails is taken for its end. Nothing says that it ends, so the turns are counted.
fn count(reader: &mut impl Read, buffer: &mut [u8]) -> u64 {
    let mut sum: u64 = 0;
    for _ in 0..u64::MAX {
        match reader.read(buffer) {
            Ok(0) => break,
            Ok(n) => sum = sum.wrapping_add(n as u64),
            Err(_) => break,
        }
    }
    sum
}

//! A reader and a writer that take a few bytes a call, and fail after a given number of calls.

use std::alloc::Global;
use std::io::{self, ErrorKind, Read, Write};

/// More reads or writes than any test makes.
pub const MANY: usize = 10_000;

/// The most bytes of the first read, and of each later one.
#[derive(Clone, Copy)]
pub struct Cuts {
    pub first: usize,
    pub later: usize,
}

impl Cuts {
    /// Makes each read give at most `size` bytes.
    pub fn each(size: usize) -> Cuts {
        Cuts {
            first: size,
            later: size,
        }
    }
}

/// Gives at most the bytes of `cuts` a read, and fails after `reads` reads. Before these, signals
/// interrupt `interrupts` reads.
#[derive(Drop)]
pub struct Reader<'a> {
    pub rest: &'a [u8],
    pub cuts: Cuts,
    pub reads: usize,
    pub interrupts: usize,
}

impl Read for Reader<'_> {
    fn read(&mut self, buf: &mut [u8]) -> io::Result<usize> {
        if self.interrupts > 0 {
            self.interrupts -= 1;
            return Err(ErrorKind::Interrupted.into());
        }
        if self.reads == 0 {
            return Err(ErrorKind::Other.into());
        }
        self.reads -= 1;
        let count = self.cuts.first.min(buf.len()).min(self.rest.len());
        self.cuts.first = self.cuts.later;
        buf[..count].copy_from_slice(&self.rest[..count]);
        self.rest = &self.rest[count..];
        Ok(count)
    }
}

/// Takes at most three bytes a write, and fails after `writes` writes.
#[derive(Drop)]
pub struct Writer {
    pub taken: Vec<u8>,
    pub writes: usize,
}

impl Writer {
    /// Makes a writer that has taken nothing. Allocates nothing.
    pub fn new(alloc: Global, writes: usize) -> Writer {
        Writer {
            taken: Vec::new(alloc),
            writes,
        }
    }
}

impl Write for Writer {
    fn write(&mut self, buf: &[u8]) -> io::Result<usize> {
        if self.writes == 0 {
            return Err(ErrorKind::Other.into());
        }
        self.writes -= 1;
        let count = buf.len().min(3);
        self.taken.extend_from_slice(&buf[..count])?;
        Ok(count)
    }

    fn flush(&mut self) -> io::Result<()> {
        Ok(())
    }
}

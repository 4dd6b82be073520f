//! The client of a connection, as a reader and a writer.

ghost use Rattle.std.specs.Prelude.{◌≡◌};
ghost use Rattle.std.specs.Io.{ReadsAtMost, WritesAtMost};
ghost use Rattle.std.specs.Io.KnownBytes.{ReadConsumes, WriteAppends};

use crate::waiting::Waiting;
use std::io::{self, ErrorKind, Read, Write};
use std::time::Clock;

/// The number of times that a call which signals interrupt is made, before it fails.
const TRIES: u32 = 16;

/// The client of a connection, over a stream: what it sends, or where its replies go. Contracts see
/// the bytes of the stream, where they are known.
#[derive(Drop)]
pub struct Client<'a, S, C: Clock> {
    pub(crate) stream: S,
    waiting: &'a Waiting<'a, C>,
}

impl<'a, S, C: Clock> Client<'a, S, C> {
    /// Makes the client over `stream`. `waiting` measures how long the server waits for it, and
    /// says when that is too long.
    pub fn new(stream: S, waiting: &'a Waiting<'a, C>) -> Self
        ensures { result.stream ≡ stream }
    {
        Client { stream, waiting }
    }
}

/// Reads once, and again where a signal interrupts the read, at most `TRIES` times in all.
fn read_once<R: Read>(reader: &mut R, buf: &mut [u8]) -> io::Result<usize>
    ensures bound { ReadsAtMost result buf.new }
    ensures bytes { ReadConsumes (R.remaining reader.old) (R.remaining reader.new) result buf.new }
{
    for _try in 1..TRIES {
        match reader.read(buf) {
            Err(error) if error.kind() == ErrorKind::Interrupted => {}
            other => return other,
        }
    }
    reader.read(buf)
}

/// Writes once, and again where a signal interrupts the write, at most `TRIES` times in all.
fn write_once<W: Write>(writer: &mut W, buf: &[u8]) -> io::Result<usize>
    ensures bound { WritesAtMost result buf.now }
    ensures bytes { WriteAppends (W.contents writer.old) (W.contents writer.new) result buf.now }
{
    for _try in 1..TRIES {
        match writer.write(buf) {
            Err(error) if error.kind() == ErrorKind::Interrupted => {}
            other => return other,
        }
    }
    writer.write(buf)
}

impl<S: Read, C: Clock> Read for Client<'_, S, C> {
    ghost remaining = { λ client. S.remaining client.stream };

    fn read(&mut self, buf: &mut [u8]) -> io::Result<usize> {
        let start = self.waiting.begin(false)?;
        let count = read_once(&mut self.stream, buf);
        self.waiting.end(start);
        count
    }
}

impl<S: Write, C: Clock> Write for Client<'_, S, C> {
    ghost contents = { λ client. S.contents client.stream };

    fn write(&mut self, buf: &[u8]) -> io::Result<usize> {
        let start = self.waiting.begin(true)?;
        let count = write_once(&mut self.stream, buf);
        self.waiting.end(start);
        count
    }

    fn flush(&mut self) -> io::Result<()> {
        Ok(())
    }
}

//! The bytes that were read and not yet used.

ghost use Rattle.std.specs.Prelude.{◌≡◌, ℕ, ◌+◌, ◌<◌, ◌≤◌, List, [], length, take, drop, IfOk, OnErr};
ghost use Rattle.std.specs.Io.KnownBytes.{IsAtEnd};
ghost use Rattle.crush_http.specs.declared.limits.TheConstants.{HEAD_LIMIT};
ghost use Rattle.crush_http.specs.Private.Reading.{ReadsOn};

use crate::limits::HEAD_LIMIT;
use std::alloc::{AllocError, Global};
use std::io::{self, Read};
use std::marker::Model;

/// The bytes that were read and not yet used, at most as many as a head may have.
#[derive(Drop)]
pub(crate) struct Buffer {
    room: Vec<u8>,
    filled: usize,
}

impl Model for Buffer {
    ghost Value = { List ℕ };

    ghost view = { λ b. take b.filled b.room.items };

    ghost invariant = { λ b. (length b.room.items ≡ HEAD_LIMIT) × (b.filled ≤ HEAD_LIMIT) };
}

impl Buffer {
    /// Makes an empty buffer. `Err(AllocError)`: an allocation failed; nothing is changed.
    pub(crate) fn new(alloc: Global) -> Result<Buffer, AllocError>
        ensures { IfOk result (λ b. b ≡ []) }
    {
        let room = vec![in alloc; 0; HEAD_LIMIT]?;
        Ok(Buffer { room, filled: 0 })
    }

    /// Drops all bytes.
    pub(crate) fn clear(&mut self)
        ensures { self.new ≡ [] }
    {
        self.filled = 0;
    }

    /// Returns the bytes that are in the buffer.
    pub(crate) fn bytes(&self) -> &[u8]
        ensures value { result.now ≡ self.now }
        ensures limit { length self.now ≤ HEAD_LIMIT }
    {
        &self.room[..self.filled]
    }

    /// Reads once, appends the bytes to those that are there, and returns the number of bytes read,
    /// 0 at the end of the input. `Err`: the read failed; nothing is changed.
    pub(crate) fn read_from<R: Read>(&mut self, reader: &mut R) -> io::Result<usize>
        requires { length self.old < HEAD_LIMIT }
        ensures read { ReadsOn self.old (R.remaining reader.old) (R.remaining reader.new) (λ all. self.new ≡ all) }
        ensures count { IfOk result (λ n. length self.new ≡ length self.old + n) }
        ensures err { OnErr result (self.new ≡ self.old) }
        ensures end { IfOk result (λ n. n ≡ 0 → IsAtEnd (R.remaining reader.new)) }
    {
        let count = reader.read(&mut self.room[self.filled..])?;
        self.filled += count;
        Ok(count)
    }

    /// Drops the first `count` bytes.
    pub(crate) fn drop_front(&mut self, count: usize)
        requires { count ≤ length self.old }
        ensures { self.new ≡ drop count self.old }
    {
        self.room.copy_within(count..self.filled, 0);
        self.filled -= count;
    }
}

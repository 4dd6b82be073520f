//! Replies that wait to be written.

ghost use Rattle.std.specs.Prelude.{◌≡◌, ℕ, ◌+◌, ◌≤◌, ◌++◌, List, [], length, take, IfOk, IsTrue};
ghost use Rattle.std.specs.Bool.{IsFalse};
ghost use Rattle.std.specs.Io.KnownBytes.{Appends};
ghost use Rattle.tenant_service.specs.Writing.{AppendsPart, AppendsUpTo};
ghost use Rattle.crush_http.specs.declared.limits.TheConstants.{HELD_LIMIT};

use crate::limits::HELD_LIMIT;
use std::alloc::{AllocError, Global};
use std::io::Write;
use std::marker::Model;
use tenant_service::write_whole;

/// Bytes that wait to be written, at most `HELD_LIMIT`.
#[derive(Drop)]
pub(crate) struct HeldBytes {
    room: Vec<u8>,
    filled: usize,
}

impl Model for HeldBytes {
    ghost Value = { List ℕ };

    ghost view = { λ h. take h.filled h.room.items };

    ghost invariant = { λ h. (length h.room.items ≡ HELD_LIMIT) × (h.filled ≤ HELD_LIMIT) };
}

impl HeldBytes {
    /// Takes the memory for `HELD_LIMIT` bytes, and holds none. `Err(AllocError)`: an allocation
    /// failed; nothing is changed.
    pub(crate) fn new(alloc: Global) -> Result<HeldBytes, AllocError>
        ensures { IfOk result (λ h. h ≡ []) }
    {
        let room = vec![in alloc; 0; HELD_LIMIT]?;
        Ok(HeldBytes { room, filled: 0 })
    }

    /// Drops what is held.
    pub(crate) fn clear(&mut self)
        ensures { self.new ≡ [] }
    {
        self.filled = 0;
    }

    /// Returns the number of bytes that are held.
    fn len(&self) -> usize
        ensures value { result ≡ length self.now }
        ensures limit { length self.now ≤ HELD_LIMIT }
    {
        self.filled
    }

    /// Appends `bytes` to what is held.
    fn hold(&mut self, bytes: &[u8])
        requires { length self.old + length bytes.now ≤ HELD_LIMIT }
        ensures { self.new ≡ self.old ++ bytes.now }
    {
        let end = self.filled + bytes.len();
        self.room[self.filled..end].copy_from_slice(bytes);
        self.filled = end;
    }

    /// Writes what is held, and returns whether all of it was written. Nothing is held afterwards:
    /// after a failed write no other is tried.
    pub(crate) fn flush<W: Write>(&mut self, writer: &mut W) -> bool
        ensures none { self.new ≡ [] }
        ensures whole { IsTrue result → Appends (W.contents writer.old) (W.contents writer.new) self.old }
        ensures part { IsFalse result → AppendsPart (W.contents writer.old) (W.contents writer.new) self.old }
    {
        let whole = write_whole(writer, &self.room[..self.filled]);
        self.filled = 0;
        whole
    }

    /// Puts `bytes` after what is held, and returns whether they are held or written. Where they
    /// have no room, what is held is written first; more than `HELD_LIMIT` bytes are then written
    /// at once, without a copy.
    pub(crate) fn put<W: Write>(&mut self, writer: &mut W, bytes: &[u8]) -> bool
        ensures whole { IsTrue result → AppendsUpTo self.new (W.contents writer.old) (W.contents writer.new) (self.old ++ bytes.now) }
        ensures part { IsFalse result → AppendsPart (W.contents writer.old) (W.contents writer.new) (self.old ++ bytes.now) }
    {
        if bytes.len() > HELD_LIMIT - self.len() {
            if !self.flush(writer) {
                return false;
            }
            if bytes.len() > HELD_LIMIT {
                return write_whole(writer, bytes);
            }
        }
        self.hold(bytes);
        true
    }
}

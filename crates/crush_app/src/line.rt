//! Short lines, put together before they are written.

ghost use Rattle.std.specs.Prelude.{◌≡◌, ℕ, ◌+◌, ◌≤◌, ◌++◌, List, [], length, take};
ghost use Rattle.crush_app.specs.declared.line.TheConstants.{LINE_ROOM};

use std::marker::Model;

/// The greatest number of bytes of a line that is put together. All replies but those of reports
/// are shorter.
pub(crate) const LINE_ROOM: usize = 512;

/// The first bytes of a line, at most `LINE_ROOM`.
#[derive(Drop)]
pub(crate) struct Line {
    room: [u8; LINE_ROOM],
    filled: usize,
}

impl Model for Line {
    ghost Value = { List ℕ };

    ghost view = { λ l. take l.filled l.room };

    ghost invariant = { λ l. (length l.room ≡ LINE_ROOM) × (l.filled ≤ LINE_ROOM) };
}

impl Line {
    /// Returns an empty line. Allocates nothing.
    pub(crate) fn new() -> Line
        ensures { result ≡ [] }
    {
        Line {
            room: [0; LINE_ROOM],
            filled: 0,
        }
    }

    /// Appends `bytes` to those that are there. Allocates nothing.
    pub(crate) fn push(&mut self, bytes: &[u8])
        requires { length self.old + length bytes.now ≤ LINE_ROOM }
        ensures { self.new ≡ self.old ++ bytes.now }
    {
        let end = self.filled + bytes.len();
        self.room[self.filled..end].copy_from_slice(bytes);
        self.filled = end;
    }

    /// Returns the bytes of the line so far.
    pub(crate) fn bytes(&self) -> &[u8]
        ensures { result.now ≡ self.now }
    {
        &self.room[..self.filled]
    }
}

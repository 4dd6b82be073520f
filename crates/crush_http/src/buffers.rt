//! The memory of connections.

ghost use Rattle.std.specs.Prelude.{◌≡◌, [], length};
ghost use Rattle.tenant_core.specs.declared.limits.TheConstants.{BODY_LIMIT};

use crate::buffer::Buffer;
use crate::held::HeldBytes;
use std::alloc::{AllocError, Global};
use tenant_core::limits::BODY_LIMIT;

/// The memory of connections that come one after the other: all that a connection needs beside what
/// its calls allocate. It is taken once.
#[derive(Drop)]
pub struct Buffers {
    pub(crate) read: Buffer,
    pub(crate) held: HeldBytes,
    pub(crate) body: Vec<u8>,
    ghost room: { length body.items ≡ BODY_LIMIT },
}

impl Buffers {
    /// Takes the memory of a connection: for a head, a body and replies that wait, each at its
    /// limit. `Err(AllocError)`: an allocation failed; nothing is changed.
    pub fn new(alloc: Global) -> Result<Buffers, AllocError> {
        let read = Buffer::new(alloc)?;
        let held = HeldBytes::new(alloc)?;
        let body = vec![in alloc; 0; BODY_LIMIT]?;
        Ok(Buffers { read, held, body })
    }

    /// Drops what the last connection left.
    pub(crate) fn clear(&mut self)
        ensures read { self.new.read ≡ [] }
        ensures held { self.new.held ≡ [] }
    {
        self.read.clear();
        self.held.clear();
    }
}

//! Clients whose bytes are given.

ghost use Rattle.std.specs.Prelude.{◌≡◌, ◌+◌, ◌<◌, ◌≤◌, [], Some, length, map, vec_capacity, option_map, IfOk};

use crush_server::{Listener, ServerFault};
use std::alloc::{AllocError, Global};
use std::io::{self, ErrorKind};

/// Clients that are given: `coming` has what each of them sends, or `None` where it can't be
/// accepted, and `answered` what those got whose connections are closed.
#[derive(Drop)]
pub struct GivenClients<'a> {
    alloc: Global,
    coming: &'a [Option<&'a [u8]>],
    answered: Vec<Vec<u8>>,
    ghost room: { length answered.items + length coming.now ≤ vec_capacity answered },
}

impl<'a> GivenClients<'a> {
    /// Makes the clients that send `coming`. `Err(AllocError)`: an allocation failed; nothing is
    /// changed.
    pub fn new(alloc: Global, coming: &'a [Option<&'a [u8]>]) -> Result<Self, AllocError> {
        let answered = Vec::with_capacity(alloc, coming.len())?;
        Ok(GivenClients {
            alloc,
            coming,
            answered,
        })
    }

    /// Returns what each client got whose connection is closed.
    pub fn answered(&self) -> &[Vec<u8>] {
        &self.answered
    }
}

impl<'a> Listener for GivenClients<'a> {
    ghost use Rattle.crush_server.specs.Clients.{Clients};

    type Reader = &'a [u8];

    type Writer = Vec<u8>;

    ghost clients = { λ s. Some (record { coming = map (option_map (λ b. b.now)) s.coming.now; answered = map (λ v. v.items) s.answered.items }) };

    ghost can_close = { λ s. length s.answered.items + length s.coming.now < vec_capacity s.answered };

    fn listen(&mut self) -> Result<(), ServerFault> {
        Ok(())
    }

    fn accept(&mut self) -> io::Result<(&'a [u8], Vec<u8>)> {
        let all: &'a [Option<&'a [u8]>] = self.coming;
        if all.is_empty() {
            return Err(ErrorKind::WouldBlock.into());
        }
        self.coming = &all[1..];
        match all[0] {
            Some(bytes) => Ok((bytes, Vec::new(self.alloc))),
            None => Err(ErrorKind::ConnectionAborted.into()),
        }
    }

    fn close(&mut self, _reader: &'a [u8], writer: Vec<u8>) {
        if self.answered.push(writer).is_err() {
            unreachable!();
        }
    }
}

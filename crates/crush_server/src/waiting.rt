//! How long the server has waited for a client.

use std::cell::Cell;
use std::io::{self, ErrorKind};
use std::time::{Clock, Duration, Instant};

/// The number of seconds that a client may take for a message and its reply, in all reads and
/// writes together.
const MESSAGE_SECONDS: u64 = 30;

/// How long the server has waited for a client so far.
#[derive(Clone, Copy)]
struct WaitTime {
    time: Duration,
    /// Whether something was written since the last read.
    replying: bool,
    /// Whether the clock couldn't be read after bytes were moved. The next read or write fails.
    is_unknown: bool,
}

/// The measure before the first read or write.
const NOTHING: WaitTime = WaitTime {
    time: Duration::ZERO,
    replying: false,
    is_unknown: false,
};

/// A measure of how long the server waits for a client. Reads and writes of one connection share
/// it.
#[derive(Drop)]
pub struct Waiting<'a, C: Clock> {
    clock: &'a C,
    waited: Cell<WaitTime>,
}

impl<'a, C: Clock> Waiting<'a, C> {
    /// Makes a measure by `clock`, which begins at 0 seconds.
    pub fn new(clock: &'a C) -> Self {
        Waiting {
            clock,
            waited: Cell::new(NOTHING),
        }
    }

    /// Begins again at 0 seconds, for the next client.
    pub fn restart(&self) {
        self.waited.set(NOTHING);
    }

    /// Begins a read or a write, and returns the time. A read that follows a write begins a new
    /// message. `Err`: the client took too long, or the clock can't be read; no byte was moved.
    pub(crate) fn begin(&self, replying: bool) -> io::Result<Instant> {
        let mut waited = self.waited.get();
        if waited.replying && !replying {
            waited.time = Duration::ZERO;
        }
        waited.replying = replying;
        self.waited.set(waited);
        if waited.is_unknown || waited.time.as_secs() >= MESSAGE_SECONDS {
            return Err(ErrorKind::TimedOut.into());
        }
        Instant::now(self.clock)
    }

    /// Ends the read or write that was begun at `start`. Where the clock can't be read, the next
    /// read or write fails, since bytes were moved already.
    pub(crate) fn end(&self, start: Instant) {
        let mut waited = self.waited.get();
        match start.elapsed(self.clock) {
            Ok(time) => waited.time = waited.time.saturating_add(time),
            Err(_) => waited.is_unknown = true,
        }
        self.waited.set(waited);
    }
}

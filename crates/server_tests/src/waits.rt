//! How long a client may take, with a clock in memory, and calls that signals interrupt.

use crush_server::{Client, Waiting};
use std::cell::Cell;
use std::io::{self, ErrorKind, Read, Write};
use std::process::Abort;
use std::time::{Clock, Duration};

/// A clock that a stream moves on. It can be read `left` times more, and then fails.
#[derive(Drop)]
struct Hand {
    now: Cell<Duration>,
    left: Cell<u32>,
}

impl Hand {
    fn new(reads: u32) -> Self {
        Hand {
            now: Cell::new(Duration::ZERO),
            left: Cell::new(reads),
        }
    }

    fn move_on(&self, seconds: u64) {
        let later = self.now.get().saturating_add(Duration::from_secs(seconds));
        self.now.set(later);
    }
}

impl Clock for Hand {
    fn monotonic(&self) -> io::Result<Duration> {
        match self.left.get() {
            0 => Err(ErrorKind::Unsupported.into()),
            left => {
                self.left.set(left - 1);
                Ok(self.now.get())
            }
        }
    }

    fn since_1970(&self) -> io::Result<Duration> {
        Ok(self.now.get())
    }
}

/// A stream that moves a byte at a call, for which it takes `seconds` seconds. Before that signals
/// interrupt `interrupts` calls.
#[derive(Drop)]
struct Slow<'a> {
    clock: &'a Hand,
    seconds: u64,
    interrupts: &'a Cell<u32>,
}

impl Slow<'_> {
    /// Takes the seconds of a call. `Err`: the call is interrupted.
    fn wait(&self) -> io::Result<()> {
        let left = self.interrupts.get();
        if left > 0 {
            self.interrupts.set(left - 1);
            return Err(ErrorKind::Interrupted.into());
        }
        self.clock.move_on(self.seconds);
        Ok(())
    }
}

impl Read for Slow<'_> {
    fn read(&mut self, buf: &mut [u8]) -> io::Result<usize> {
        self.wait()?;
        let Some(first) = buf.first_mut() else {
            return Ok(0);
        };
        *first = b'x';
        Ok(1)
    }
}

impl Write for Slow<'_> {
    fn write(&mut self, buf: &[u8]) -> io::Result<usize> {
        self.wait()?;
        Ok(buf.len().min(1))
    }

    fn flush(&mut self) -> io::Result<()> {
        Ok(())
    }
}

/// A number of readings of the clock that is enough for each test.
const MANY: u32 = 1_000;

/// A client over such a stream.
type SlowClient<'a> = Client<'a, Slow<'a>, Hand>;

/// Makes a client whose stream takes `seconds` seconds for a byte.
fn client<'a>(
    clock: &'a Hand,
    seconds: u64,
    interrupts: &'a Cell<u32>,
    waiting: &'a Waiting<'a, Hand>,
) -> SlowClient<'a> {
    let stream = Slow {
        clock,
        seconds,
        interrupts,
    };
    Client::new(stream, waiting)
}

/// Asserts that a read gives the byte that the stream has.
fn assert_read(rt: &impl Abort, client: &mut SlowClient<'_>) {
    let mut byte = [0];
    let count = client.read(&mut byte).expect(rt, "not read");
    assert!(rt; count == 1 && byte[0] == b'x', "{count} bytes: {}", byte[0]);
}

/// Asserts that a write takes a byte.
fn assert_written(rt: &impl Abort, client: &mut SlowClient<'_>) {
    let count = client.write(b"y").expect(rt, "not written");
    assert!(rt; count == 1, "{count} bytes");
}

/// Asserts that a read fails by `kind`.
fn assert_not_read(rt: &impl Abort, client: &mut SlowClient<'_>, kind: ErrorKind) {
    let error = client.read(&mut [0]).expect_err(rt, "read");
    assert!(rt; error.kind() == kind, "{error:?}");
}

/// Asserts that a write fails by `kind`.
fn assert_not_written(rt: &impl Abort, client: &mut SlowClient<'_>, kind: ErrorKind) {
    let error = client.write(b"y").expect_err(rt, "written");
    assert!(rt; error.kind() == kind, "{error:?}");
}

#[test]
fn a_message_may_take_thirty_seconds(rt: HostRuntime) {
    let clock = Hand::new(MANY);
    let interrupts = Cell::new(0);
    let waiting = Waiting::new(&clock);
    let mut client = client(&clock, 29, &interrupts, &waiting);
    assert_read(&rt, &mut client);
    // the client has taken 29 seconds, and takes 58 with this read
    assert_read(&rt, &mut client);
    assert_not_read(&rt, &mut client, ErrorKind::TimedOut);
}

#[test]
fn a_read_after_a_reply_begins_a_message(rt: HostRuntime) {
    let clock = Hand::new(MANY);
    let interrupts = Cell::new(0);
    let waiting = Waiting::new(&clock);
    let mut client = client(&clock, 15, &interrupts, &waiting);
    for _message in 0..3 {
        assert_read(&rt, &mut client);
        assert_written(&rt, &mut client);
    }
    // the reply is part of the message's time
    assert_not_written(&rt, &mut client, ErrorKind::TimedOut);
}

#[test]
fn an_interrupted_call_is_made_again(rt: HostRuntime) {
    let clock = Hand::new(MANY);
    let interrupts = Cell::new(15);
    let waiting = Waiting::new(&clock);
    let mut client = client(&clock, 0, &interrupts, &waiting);
    assert_read(&rt, &mut client);
    interrupts.set(15);
    assert_written(&rt, &mut client);
    interrupts.set(16);
    assert_not_read(&rt, &mut client, ErrorKind::Interrupted);
}

#[test]
fn bytes_that_were_moved_are_told_where_the_clock_fails(rt: HostRuntime) {
    // the clock is read before the stream, and fails after it
    let clock = Hand::new(1);
    let interrupts = Cell::new(0);
    let waiting = Waiting::new(&clock);
    let mut client = client(&clock, 0, &interrupts, &waiting);
    assert_read(&rt, &mut client);
    assert_not_read(&rt, &mut client, ErrorKind::TimedOut);
}

#[test]
fn a_clock_that_failed_counts_for_one_client_alone(rt: HostRuntime) {
    let clock = Hand::new(1);
    let interrupts = Cell::new(0);
    let waiting = Waiting::new(&clock);
    let mut client = client(&clock, 0, &interrupts, &waiting);
    assert_read(&rt, &mut client);
    assert_not_read(&rt, &mut client, ErrorKind::TimedOut);
    // the next client comes, and the clock can be read again
    clock.left.set(MANY);
    waiting.restart();
    assert_read(&rt, &mut client);
}

//! When replies are written: together, before a read, at the end, and a long body at once.

use crate::connections::{end_of, new_service};
use crate::same::{assert_same, assert_same_at};
use crate::streams::{NO_PATH, REPLIES, STREAM};
use common_tests::streams::{Cuts, MANY, Reader};
use crush_http::limits::HELD_LIMIT;
use crush_http::{Buffers, ConnectionEnd};
use std::alloc::Global;
use std::cell::Cell;
use std::io::{self, ErrorKind, Read, Write};
use std::process::Abort;

/// A message for a path that there isn't.
const ASKS: &[u8] = b"GET /x HTTP/1.1\r\n\r\n";

/// The length of the two whole messages of the stream, in bytes.
const TWO: usize = 60;

/// A reader that notes at each read the number of bytes that had been written by then.
#[derive(Drop)]
struct Watcher<'a> {
    reader: Reader<'a>,
    written: &'a Cell<usize>,
    seen: Vec<usize>,
}

impl Read for Watcher<'_> {
    fn read(&mut self, buf: &mut [u8]) -> io::Result<usize> {
        self.seen.push(self.written.get())?;
        self.reader.read(buf)
    }
}

/// A writer that takes `room` bytes in all, then fails, and notes the length of each write.
#[derive(Drop)]
struct Recorder<'a> {
    room: usize,
    written: &'a Cell<usize>,
    taken: Vec<u8>,
    lengths: Vec<usize>,
}

impl Write for Recorder<'_> {
    fn write(&mut self, buf: &[u8]) -> io::Result<usize> {
        self.lengths.push(buf.len())?;
        if self.room == 0 {
            return Err(ErrorKind::Other.into());
        }
        let count = buf.len().min(self.room);
        self.room -= count;
        self.taken.extend_from_slice(&buf[..count])?;
        self.written.set(self.taken.len());
        Ok(count)
    }

    fn flush(&mut self) -> io::Result<()> {
        Ok(())
    }
}

/// What was seen of a connection: how it ended, and the bytes that were written.
#[derive(Drop)]
struct Record {
    ended: ConnectionEnd,
    taken: Vec<u8>,
    /// The number of bytes that each write was given.
    lengths: Vec<usize>,
    /// The number of bytes that had been written at each read.
    seen: Vec<usize>,
}

/// Serves a connection by a new service. The writer takes `room` bytes. Returns what was seen of
/// the connection.
fn connect(
    rt: &impl Abort,
    alloc: Global,
    buffers: &mut Buffers,
    input: &[u8],
    cuts: Cuts,
    room: usize,
) -> Record {
    let mut service = new_service(rt, alloc);
    let written = Cell::new(0);
    let mut reader = Watcher {
        reader: Reader {
            rest: input,
            cuts,
            reads: MANY,
            interrupts: 0,
        },
        written: &written,
        seen: Vec::new(alloc),
    };
    let mut writer = Recorder {
        room,
        written: &written,
        taken: Vec::new(alloc),
        lengths: Vec::new(alloc),
    };
    let ended = end_of(buffers, &mut service, &mut reader, &mut writer);
    let Watcher { seen, .. } = reader;
    let Recorder { taken, lengths, .. } = writer;
    Record {
        ended,
        taken,
        lengths,
        seen,
    }
}

/// The cuts by which the first two messages come together, and then one more.
const FIRST_TWO: Cuts = Cuts {
    first: TWO,
    later: 20_000,
};

/// Makes an input of the first two messages of the stream and one more.
fn three_messages(rt: &impl Abort, alloc: Global) -> Vec<u8> {
    let mut input = Vec::new(alloc);
    input
        .extend_from_slice(&STREAM[..TWO])
        .expect(rt, "no memory");
    input.extend_from_slice(ASKS).expect(rt, "no memory");
    input
}

#[test]
fn replies_are_written_before_a_read(rt: HostRuntime) {
    let input = three_messages(&rt, rt.alloc());
    let mut buffers = Buffers::new(rt.alloc()).expect(&rt, "no memory");
    let found = connect(&rt, rt.alloc(), &mut buffers, &input, FIRST_TWO, usize::MAX);
    assert_same(&rt, &found.ended, &ConnectionEnd::Closed);
    let all = REPLIES.len() + NO_PATH.len();
    assert_same(&rt, &found.seen.as_slice(), &&[0, REPLIES.len(), all][..]);
}

/// Makes a list of `bytes` 16 times.
fn sixteen(rt: &impl Abort, alloc: Global, bytes: &[u8]) -> Vec<u8> {
    let mut all = Vec::new(alloc);
    for _ in 0..16 {
        all.extend_from_slice(bytes).expect(rt, "no memory");
    }
    all
}

#[test]
fn replies_to_messages_of_one_read_are_written_together(rt: HostRuntime) {
    let input = sixteen(&rt, rt.alloc(), ASKS);
    let replies = sixteen(&rt, rt.alloc(), NO_PATH);
    let mut buffers = Buffers::new(rt.alloc()).expect(&rt, "no memory");
    let found = connect(
        &rt,
        rt.alloc(),
        &mut buffers,
        &input,
        Cuts::each(20_000),
        usize::MAX,
    );
    assert_same(&rt, &found.taken.as_slice(), &replies.as_slice());
    assert_same(&rt, &found.lengths.as_slice(), &&[replies.len()][..]);
}

#[test]
fn no_write_follows_one_that_failed(rt: HostRuntime) {
    let input = three_messages(&rt, rt.alloc());
    let mut buffers = Buffers::new(rt.alloc()).expect(&rt, "no memory");
    let found = connect(&rt, rt.alloc(), &mut buffers, &input, FIRST_TWO, 150);
    assert_same(&rt, &found.ended, &ConnectionEnd::WriteFault);
    assert_same(&rt, &found.taken.as_slice(), &&REPLIES[..150]);
    assert_same(&rt, &found.lengths.len(), &2);
    assert_same(&rt, &found.seen.as_slice(), &&[0][..]);
}

#[test]
fn a_connection_finds_nothing_of_the_last_one(rt: HostRuntime) {
    let mut buffers = Buffers::new(rt.alloc()).expect(&rt, "no memory");
    let whole = Cuts::each(20_000);
    for room in [usize::MAX, 150, 0] {
        connect(&rt, rt.alloc(), &mut buffers, STREAM, whole, room);
        let found = connect(&rt, rt.alloc(), &mut buffers, ASKS, whole, usize::MAX);
        assert_same_at(&rt, [room as u64, 0], &found.ended, &ConnectionEnd::Closed);
        assert_same_at(&rt, [room as u64, 1], &found.taken.as_slice(), &NO_PATH);
    }
}

/// Makes a body that imports a map, whose text has more than `HELD_LIMIT` bytes.
fn long_map(rt: &impl Abort, alloc: Global) -> String {
    let mut body = String::new(alloc);
    body.push_str("{\"request\":\"r\",\"text\":\"tunable choose_local_tries 0\\n")
        .expect(rt, "no memory");
    body.push_str("tunable choose_local_fallback_tries 0\\ntype 0 osd\\n")
        .expect(rt, "no memory");
    for number in 0..1_024 {
        let device = format!(in alloc;
            "device {number} a.name.of.some.sixty.letters.for.a.long.reply.of.a.server.{number}\\n"
        ).expect(rt, "no memory");
        body.push_str(&device).expect(rt, "no memory");
    }
    body.push_str("\"}").expect(rt, "no memory");
    body
}

/// Makes messages that create a tenant, import the long map, ask for its text, and ask for a path
/// that there isn't.
fn long_messages(rt: &impl Abort, alloc: Global) -> Vec<u8> {
    let body = long_map(rt, alloc);
    let length = body.len();
    let head = format!(in alloc;
        "PUT /t/a HTTP/1.1\r\n\r\nPOST /t/a/maps HTTP/1.1\r\nContent-Length: {length}\r\n\r\n"
    ).expect(rt, "no memory");
    let mut input = Vec::new(alloc);
    input
        .extend_from_slice(head.as_bytes())
        .expect(rt, "no memory");
    input
        .extend_from_slice(body.as_bytes())
        .expect(rt, "no memory");
    input
        .extend_from_slice(b"GET /t/a/maps/1 HTTP/1.1\r\n\r\n")
        .expect(rt, "no memory");
    input.extend_from_slice(ASKS).expect(rt, "no memory");
    input
}

#[test]
fn a_body_longer_than_what_is_held_is_written_at_once(rt: HostRuntime) {
    let input = long_messages(&rt, rt.alloc());
    let mut buffers = Buffers::new(rt.alloc()).expect(&rt, "no memory");
    let found = connect(
        &rt,
        rt.alloc(),
        &mut buffers,
        &input,
        Cuts::each(20_000),
        usize::MAX,
    );
    assert_same(&rt, &found.ended, &ConnectionEnd::Closed);
    let mut long = 0;
    for length in found.lengths.as_slice() {
        long = long.max(*length);
    }
    assert!(rt; long > HELD_LIMIT, "{long} bytes");
    let front = format!(in rt.alloc();
        "HTTP/1.1 201 Created\r\nContent-Length: 24\r\nContent-Type: application/json\r\n\r\n{{\"epoch\":0,\"tenant\":\"a\"}}HTTP/1.1 201 Created\r\nContent-Length: 23\r\nContent-Type: application/json\r\n\r\n{{\"epoch\":1,\"version\":1}}HTTP/1.1 200 OK\r\nContent-Length: {long}\r\nContent-Type: application/json\r\n\r\n{{\"text\":\"# begin crush map\\n"
    ).expect(&rt, "no memory");
    assert!(rt; found.taken.starts_with(front.as_bytes()));
    assert!(rt; found.taken.ends_with(NO_PATH));
}

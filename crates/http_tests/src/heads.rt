//! Heads that are refused.

use crate::connections::{assert_replies, connect};
use crate::same::assert_same_at;
use crate::streams::{NO_PATH, Stream};
use common_tests::streams::{Cuts, MANY};
use crush_http::{Buffers, ConnectionEnd};
use std::alloc::Global;
use std::process::Abort;

const BAD_REQUEST: &[u8] =
    b"HTTP/1.1 400 Bad Request\r\nContent-Length: 23\r\nContent-Type: application/json\r\nConnection: close\r\n\r\n{\"error\":\"bad_request\"}";

const LENGTH: &[u8] =
    b"HTTP/1.1 501 Not Implemented\r\nContent-Length: 18\r\nContent-Type: application/json\r\nConnection: close\r\n\r\n{\"error\":\"length\"}";

/// Bytes that are no head, two lengths, a length of eleven digits, and a transfer encoding, which
/// is refused before a length past the limit.
const REFUSED: [Stream; 4] = [
    (b"GET  /x HTTP/1.1\r\n\r\n", ConnectionEnd::Bad, BAD_REQUEST),
    (
        b"GET /x HTTP/1.1\r\nContent-Length: 0\r\nContent-Length: 0\r\n\r\n",
        ConnectionEnd::Bad,
        BAD_REQUEST,
    ),
    (
        b"GET /x HTTP/1.1\r\nContent-Length: 12345678901\r\n\r\n",
        ConnectionEnd::Bad,
        BAD_REQUEST,
    ),
    (
        b"GET /x HTTP/1.1\r\nTransfer-Encoding: chunked\r\nContent-Length: 5242881\r\n\r\n",
        ConnectionEnd::Bad,
        LENGTH,
    ),
];

#[test]
fn heads_are_refused(rt: HostRuntime) {
    let mut buffers = Buffers::new(rt.alloc()).expect(&rt, "no memory");
    for stream in &REFUSED {
        assert_replies(&rt, rt.alloc(), &mut buffers, stream);
    }
}

/// The front of a head, a part, the number of times that the part follows, and the end of the head;
/// then how its connection ends, and the reply.
type Long = (
    &'static [u8],
    &'static [u8],
    usize,
    &'static [u8],
    ConnectionEnd,
    &'static [u8],
);

/// Heads of 32 headers and of 33, of 8,192 bytes and of 8,193.
const AT_LIMITS: [Long; 4] = [
    (
        b"GET /x HTTP/1.1\r\n",
        b"A: b\r\n",
        32,
        b"\r\n",
        ConnectionEnd::Closed,
        NO_PATH,
    ),
    (
        b"GET /x HTTP/1.1\r\n",
        b"A: b\r\n",
        33,
        b"\r\n",
        ConnectionEnd::Bad,
        BAD_REQUEST,
    ),
    (
        b"GET /x HTTP/1.1\r\nA: ",
        b"b",
        8_192 - 24,
        b"\r\n\r\n",
        ConnectionEnd::Closed,
        NO_PATH,
    ),
    (
        b"GET /x HTTP/1.1\r\nA: ",
        b"b",
        8_193 - 24,
        b"\r\n\r\n",
        ConnectionEnd::Bad,
        BAD_REQUEST,
    ),
];

/// Makes the bytes of the head that `long` describes.
fn long_head(rt: &impl Abort, alloc: Global, long: &Long) -> Vec<u8> {
    let (front, part, count, end, _, _) = *long;
    let mut head = Vec::new(alloc);
    head.extend_from_slice(front).expect(rt, "no memory");
    for _ in 0..count {
        head.extend_from_slice(part).expect(rt, "no memory");
    }
    head.extend_from_slice(end).expect(rt, "no memory");
    head
}

/// Asserts that the head `long` gets its reply and that its connection ends as it says.
fn assert_long(rt: &impl Abort, alloc: Global, place: usize, long: &Long) {
    let head = long_head(rt, alloc, long);
    let (ended, written) = connect(rt, alloc, &head, Cuts::each(20_000), MANY, MANY);
    assert_same_at(rt, [place as u64, 0], &ended, &long.4);
    assert_same_at(rt, [place as u64, 1], &written.as_slice(), &long.5);
}

#[test]
fn a_head_has_32_headers_and_8192_bytes_at_most(rt: HostRuntime) {
    for (place, long) in AT_LIMITS.iter().enumerate() {
        assert_long(&rt, rt.alloc(), place, long);
    }
}

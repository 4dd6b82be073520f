//! Streams of messages and their replies.

use crate::connections::{assert_replies, connect, connect_to, new_service};
use crate::same::assert_same_at;
use common_tests::streams::{Cuts, MANY};
use crush_http::{Buffers, ConnectionEnd};
use std::alloc::Global;
use std::process::Abort;

/// Two messages, and a third that ends in its body.
pub(crate) const STREAM: &[u8] =
    b"PUT /t/a HTTP/1.1\r\nHost: l\r\n\r\nGET /t/a HTTP/1.1\r\nHost: l\r\n\r\nPOST /t/a/test HTTP/1.1\r\nContent-Length: 30\r\n\r\n{\"ru";

/// The replies to the two whole messages.
pub(crate) const REPLIES: &[u8] =
    b"HTTP/1.1 201 Created\r\nContent-Length: 24\r\nContent-Type: application/json\r\n\r\n{\"epoch\":0,\"tenant\":\"a\"}HTTP/1.1 200 OK\r\nContent-Length: 59\r\nContent-Type: application/json\r\n\r\n{\"devices\":0,\"epoch\":0,\"pools\":0,\"tenant\":\"a\",\"versions\":0}";

/// The reply to a message for a path that there isn't.
pub(crate) const NO_PATH: &[u8] =
    b"HTTP/1.1 404 Not Found\r\nContent-Length: 19\r\nContent-Type: application/json\r\n\r\n{\"error\":\"no_path\"}";

/// The bytes of a connection, how it ends, and what is written to it.
pub(crate) type Stream = (&'static [u8], ConnectionEnd, &'static [u8]);

const STREAMS: [Stream; 5] = [
    (STREAM, ConnectionEnd::Closed, REPLIES),
    // the third message has a body of the limit, which isn't whole
    (
        b"PUT /t/a HTTP/1.1\r\nHost: l\r\n\r\nGET /t/a HTTP/1.1\r\nHost: l\r\n\r\nPOST /t/a/test HTTP/1.1\r\nContent-Length: 5242880\r\n\r\n{\"ru",
        ConnectionEnd::Closed,
        REPLIES,
    ),
    // a body over the limit is refused by its length
    (
        b"PUT /t/a HTTP/1.1\r\nHost: l\r\n\r\nGET /t/a HTTP/1.1\r\nHost: l\r\n\r\nPOST /t/a/test HTTP/1.1\r\nContent-Length: 5242881\r\n\r\n{\"ru",
        ConnectionEnd::Bad,
        b"HTTP/1.1 201 Created\r\nContent-Length: 24\r\nContent-Type: application/json\r\n\r\n{\"epoch\":0,\"tenant\":\"a\"}HTTP/1.1 200 OK\r\nContent-Length: 59\r\nContent-Type: application/json\r\n\r\n{\"devices\":0,\"epoch\":0,\"pools\":0,\"tenant\":\"a\",\"versions\":0}HTTP/1.1 413 Payload Too Large\r\nContent-Length: 21\r\nContent-Type: application/json\r\nConnection: close\r\n\r\n{\"error\":\"too_large\"}",
    ),
    // a body is read, and the next message after it, which is the last one
    (
        b"POST /t/a/pick HTTP/1.1\r\ncontent-LENGTH: 104\r\nExpect: 100-continue\r\n\r\n{\"bucket\":{\"id\":-1,\"items\":[{\"item\":4,\"weight\":0},{\"item\":9,\"weight\":65536}],\"kind\":\"list\"},\"r\":0,\"x\":5}GET /x HTTP/1.1\r\nConnection: CLOSE\r\n\r\nGET /x HTTP/1.1\r\n\r\n",
        ConnectionEnd::Closed,
        b"HTTP/1.1 404 Not Found\r\nContent-Length: 21\r\nContent-Type: application/json\r\n\r\n{\"error\":\"no_tenant\"}HTTP/1.1 404 Not Found\r\nContent-Length: 19\r\nContent-Type: application/json\r\nConnection: close\r\n\r\n{\"error\":\"no_path\"}",
    ),
    // a connection of the older version ends after the reply
    (
        b"GET /x HTTP/1.0\r\n\r\nGET /x HTTP/1.1\r\n\r\n",
        ConnectionEnd::Closed,
        b"HTTP/1.1 404 Not Found\r\nContent-Length: 19\r\nContent-Type: application/json\r\nConnection: close\r\n\r\n{\"error\":\"no_path\"}",
    ),
];

#[test]
fn streams_have_the_replies_to_their_whole_messages(rt: HostRuntime) {
    let mut buffers = Buffers::new(rt.alloc()).expect(&rt, "no memory");
    for stream in &STREAMS {
        assert_replies(&rt, rt.alloc(), &mut buffers, stream);
    }
}

/// Asserts that the worked stream gets its replies where the first read gives `first` bytes.
fn assert_cut_at(rt: &impl Abort, alloc: Global, buffers: &mut Buffers, first: usize) {
    let mut service = new_service(rt, alloc);
    let cuts = Cuts {
        first,
        later: 20_000,
    };
    let (ended, written) = connect_to(alloc, buffers, &mut service, STREAM, cuts, MANY, MANY);
    assert_same_at(rt, [first as u64, 0], &ended, &ConnectionEnd::Closed);
    assert_same_at(rt, [first as u64, 1], &written.as_slice(), &REPLIES);
}

#[test]
fn a_stream_is_answered_alike_wherever_it_is_cut(rt: HostRuntime) {
    let mut buffers = Buffers::new(rt.alloc()).expect(&rt, "no memory");
    for first in 1..STREAM.len() {
        assert_cut_at(&rt, rt.alloc(), &mut buffers, first);
    }
}

/// A message that creates a tenant, and the head of one with a body of `LONG_BODY` bytes.
const LONG_FRONT: &[u8] =
    b"PUT /t/a HTTP/1.1\r\n\r\nPOST /t/a/pick HTTP/1.1\r\nContent-Length: 6000\r\n\r\n";

/// The length of that body: blanks, which JSON passes over, and then a pick.
const LONG_BODY: usize = 6_000;

/// The pick, from a list bucket of one item.
const PICK: &[u8] =
    b"{\"bucket\":{\"id\":-1,\"items\":[{\"item\":4,\"weight\":65536}],\"kind\":\"list\"},\"r\":0,\"x\":0}";

/// The replies to the two messages: the pick is of the one item.
const PICKED: &[u8] =
    b"HTTP/1.1 201 Created\r\nContent-Length: 24\r\nContent-Type: application/json\r\n\r\n{\"epoch\":0,\"tenant\":\"a\"}HTTP/1.1 200 OK\r\nContent-Length: 10\r\nContent-Type: application/json\r\n\r\n{\"item\":4}";

/// Makes the two messages.
fn long_stream(rt: &impl Abort, alloc: Global) -> Vec<u8> {
    let mut input = Vec::new(alloc);
    input.extend_from_slice(LONG_FRONT).expect(rt, "no memory");
    for _blank in PICK.len()..LONG_BODY {
        input.push(b' ').expect(rt, "no memory");
    }
    input.extend_from_slice(PICK).expect(rt, "no memory");
    input
}

#[test]
fn a_long_body_may_come_byte_by_byte(rt: HostRuntime) {
    let input = long_stream(&rt, rt.alloc());
    let (ended, written) = connect(&rt, rt.alloc(), &input, Cuts::each(1), MANY, MANY);
    assert_same_at(&rt, [0, 0], &ended, &ConnectionEnd::Closed);
    assert_same_at(&rt, [0, 1], &written.as_slice(), &PICKED);
}

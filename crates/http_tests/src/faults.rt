//! Connections whose reader or writer fails: each read and each write of the worked stream in turn.

use crate::connections::{connect_to, new_service};
use crate::same::{assert_at, assert_same, assert_same_at};
use crate::streams::{REPLIES, STREAM};
use common_tests::rows::created;
use common_tests::streams::{Cuts, MANY};
use crush_http::{Buffers, ConnectionEnd};
use std::alloc::Global;
use std::process::Abort;

/// The length of the first message of the stream, in bytes.
const ONE: usize = 30;

/// The length of the first two messages, in bytes.
const TWO: usize = 60;

/// The length of the reply to the first message, in bytes.
const FIRST: usize = 100;

/// Returns the replies to the messages that are whole in the first `bytes` bytes of the stream.
fn replies_within(bytes: usize) -> &'static [u8] {
    if bytes < ONE {
        &[]
    } else if bytes < TWO {
        &REPLIES[..FIRST]
    } else {
        REPLIES
    }
}

/// Serves a connection with the worked stream by a new service, with reads of at most `size` bytes.
/// The reader fails after `reads` reads, and the writer after `writes` writes. Returns how the
/// connection ended, and what was written.
fn connect(
    rt: &impl Abort,
    alloc: Global,
    buffers: &mut Buffers,
    size: usize,
    reads: usize,
    writes: usize,
) -> (ConnectionEnd, Vec<u8>) {
    let mut service = new_service(rt, alloc);
    let cuts = Cuts::each(size);
    connect_to(alloc, buffers, &mut service, STREAM, cuts, reads, writes)
}

/// Serves a connection whose reader fails after `reads` reads, and asserts that the replies to the
/// whole messages were written. Returns whether it is closed; else it met the fault.
fn is_closed_after(
    rt: &impl Abort,
    alloc: Global,
    buffers: &mut Buffers,
    size: usize,
    reads: usize,
) -> bool {
    let (ended, written) = connect(rt, alloc, buffers, size, reads, MANY);
    let replies = replies_within(size.saturating_mul(reads));
    assert_same_at(
        rt,
        [reads as u64, size as u64],
        &written.as_slice(),
        &replies,
    );
    let is_closed = ended == ConnectionEnd::Closed;
    let is_fault = ended == ConnectionEnd::ReadFault;
    assert_at(rt, [reads as u64, size as u64], is_closed || is_fault);
    is_closed
}

#[test]
fn a_read_fault_leaves_the_replies_to_whole_messages(rt: HostRuntime) {
    let mut buffers = Buffers::new(rt.alloc()).expect(&rt, "no memory");
    for size in [1usize, 7, 50, 20_000] {
        for reads in 0..MANY {
            let is_closed = is_closed_after(&rt, rt.alloc(), &mut buffers, size, reads);
            // the read after that of the last bytes says that nothing more comes
            let before = size.saturating_mul(reads.saturating_sub(1));
            assert_same_at(
                &rt,
                [reads as u64, size as u64],
                &is_closed,
                &(STREAM.len() <= before),
            );
            if is_closed {
                break;
            }
        }
    }
}

/// Serves a connection whose writer fails after `writes` writes. Returns the number of bytes of the
/// replies that were written, and whether the connection is closed; else it met the fault.
fn written_after(
    rt: &impl Abort,
    alloc: Global,
    buffers: &mut Buffers,
    size: usize,
    writes: usize,
) -> (usize, bool) {
    let (ended, written) = connect(rt, alloc, buffers, size, MANY, writes);
    let is_front = REPLIES.starts_with(written.as_slice());
    assert_at(rt, [writes as u64, 0], is_front);
    let is_closed = ended == ConnectionEnd::Closed;
    let is_fault = ended == ConnectionEnd::WriteFault;
    assert_at(rt, [writes as u64, 1], is_closed || is_fault);
    (written.len(), is_closed)
}

#[test]
fn a_write_fault_leaves_a_front_of_the_replies(rt: HostRuntime) {
    let mut buffers = Buffers::new(rt.alloc()).expect(&rt, "no memory");
    for size in [1usize, 50, 20_000] {
        let mut front = 0;
        // a write takes three bytes at most, and one at least
        for writes in 0..MANY {
            let (length, is_closed) = written_after(&rt, rt.alloc(), &mut buffers, size, writes);
            assert_at(&rt, [writes as u64, 2], writes == 0 || front < length);
            assert_same_at(
                &rt,
                [writes as u64, 3],
                &is_closed,
                &(length == REPLIES.len()),
            );
            front = length;
            if is_closed {
                break;
            }
        }
        assert_same_at(&rt, [size as u64, 0], &front, &REPLIES.len());
    }
}

/// Three messages, each with a reply of as many bytes as the first reply of the worked stream.
const CREATIONS: &[u8] =
    b"PUT /t/a HTTP/1.1\r\nHost: l\r\n\r\nPUT /t/b HTTP/1.1\r\nHost: l\r\n\r\nPUT /t/c HTTP/1.1\r\nHost: l\r\n\r\n";

/// Serves a connection that creates three tenants, each byte in a read of its own, and whose writer
/// fails after `writes` writes. Returns the number of tenants that are then there, and the number
/// of bytes that were written.
fn create(
    rt: &impl Abort,
    alloc: Global,
    buffers: &mut Buffers,
    writes: usize,
) -> (Option<usize>, usize) {
    let mut service = new_service(rt, alloc);
    let cuts = Cuts::each(1);
    let (_, written) = connect_to(alloc, buffers, &mut service, CREATIONS, cuts, MANY, writes);
    (created(&mut service), written.len())
}

#[test]
fn a_request_whose_reply_is_cut_is_done_and_no_later_one(rt: HostRuntime) {
    let mut buffers = Buffers::new(rt.alloc()).expect(&rt, "no memory");
    let mut all = 0;
    for writes in 0..FIRST + 3 {
        let (done, bytes) = create(&rt, rt.alloc(), &mut buffers, writes);
        assert_same_at(
            &rt,
            [writes as u64, bytes as u64],
            &done,
            &Some((bytes / FIRST).saturating_add(1).min(3)),
        );
        all = bytes;
    }
    assert_same(&rt, &all, &(3 * FIRST));
}

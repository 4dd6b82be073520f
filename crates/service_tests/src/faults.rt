//! Scripts whose reader or writer fails: each read and each write in turn.

use crate::same::{assert_at, assert_same, assert_same_at};
use crate::scripts::{REPLIES, end_of, new_service, play};
use common_tests::rows::created;
use common_tests::streams::{Cuts, MANY, Reader, Writer};
use crush_app::ScriptEnd;
use std::alloc::Global;
use std::process::Abort;

/// Returns the number of bytes of the replies that are written where the writer fails after
/// `writes` writes, and whether the script is done; if it isn't, it met the fault.
fn written_after(rt: &impl Abort, alloc: Global, writes: usize) -> (usize, bool) {
    let (end, written) = play(rt, alloc, MANY, writes);
    let is_front = REPLIES.as_bytes().starts_with(written.as_slice());
    assert_at(rt, [writes as u64, 0], is_front);
    let is_done = end == ScriptEnd::Done;
    let is_fault = end == ScriptEnd::WriteFault;
    assert_at(rt, [writes as u64, 1], is_done || is_fault);
    (written.len(), is_done)
}

#[test]
fn a_write_fault_leaves_a_front_of_the_replies(rt: HostRuntime) {
    let mut front = 0;
    // a write takes three bytes at most, and one at least
    for writes in 0..MANY {
        let (length, is_done) = written_after(&rt, rt.alloc(), writes);
        assert_at(&rt, [writes as u64, 2], writes == 0 || front < length);
        assert_same_at(
            &rt,
            [writes as u64, 3],
            &is_done,
            &(length == REPLIES.len()),
        );
        front = length;
        if is_done {
            break;
        }
    }
    assert_same(&rt, &front, &REPLIES.len());
}

/// Three lines that make a tenant each.
const CREATIONS: &[u8] = b"PUT /t/a\nPUT /t/b\nPUT /t/c\n";

/// The bytes of the reply to one of the creations.
const REPLY: usize = 29;

/// Plays `CREATIONS` with a reader and a writer that fail after `reads` reads and `writes` writes.
/// Returns how the script ends, the number of tenants that are then there, and that of the bytes
/// that were written.
fn create(
    rt: &impl Abort,
    alloc: Global,
    reads: usize,
    writes: usize,
) -> (ScriptEnd, Option<usize>, usize) {
    let mut service = new_service(rt, alloc);
    let mut reader = Reader {
        rest: CREATIONS,
        cuts: Cuts::each(1),
        reads,
        interrupts: 0,
    };
    let mut writer = Writer::new(alloc, writes);
    let end = end_of(rt, alloc, &mut service, &mut reader, &mut writer);
    (end, created(&mut service), writer.taken.len())
}

#[test]
fn no_line_is_served_after_a_read_fault(rt: HostRuntime) {
    let whole = (ScriptEnd::Done, Some(3), 3 * REPLY);
    let nothing = (ScriptEnd::ReadFault, Some(0), 0);
    // a read gives one byte; the last one finds the end
    for reads in 0..CREATIONS.len().saturating_add(2) {
        let found = create(&rt, rt.alloc(), reads, MANY);
        let expected = if reads <= CREATIONS.len() {
            nothing
        } else {
            whole
        };
        assert_same_at(&rt, [reads as u64, 0], &found, &expected);
    }
}

#[test]
fn a_line_whose_reply_is_cut_is_done_and_no_later_one(rt: HostRuntime) {
    let mut all = 0;
    for writes in 0..2 * REPLY {
        let (_, done, bytes) = create(&rt, rt.alloc(), MANY, writes);
        let expected = (bytes / REPLY).saturating_add(1).min(3);
        assert_same_at(&rt, [writes as u64, bytes as u64], &done, &Some(expected));
        all = bytes;
    }
    assert_same(&rt, &all, &(3 * REPLY));
}

//! Clients whose bytes are given, served by a service in memory.

use crate::given::GivenClients;
use crate::messages::{REPLIES, REPLIES_AGAIN, STREAM};
use crate::served::{assert_got, assert_served};
use std::alloc::Global;
use std::process::Abort;

/// Serves `connections` of the clients that send `coming`, of which those that are `None` can't be
/// accepted. Asserts that as many connections as `replies` are then closed, and got these.
fn assert_replies<'a>(
    rt: &impl Abort,
    alloc: Global,
    coming: &'a [Option<&'a [u8]>],
    connections: u32,
    replies: &[&[u8]],
) {
    let mut clients = GivenClients::new(alloc, coming).expect(rt, "no memory");
    assert_served(rt, alloc, &mut clients, connections);
    let answered = clients.answered();
    assert!(rt;
        answered.len() == replies.len(),
        "{} answered",
        answered.len()
    );
    for (got, expected) in answered.iter().zip(replies) {
        assert_got(rt, got.as_slice(), *expected);
    }
}

#[test]
fn clients_in_memory_are_served_in_order(rt: HostRuntime) {
    let coming = [Some(STREAM), None, Some(STREAM)];
    assert_replies(&rt, rt.alloc(), &coming, 3, &[REPLIES, REPLIES_AGAIN]);
}

#[test]
fn no_more_clients_are_accepted_than_asked(rt: HostRuntime) {
    let coming = [Some(STREAM), Some(STREAM)];
    assert_replies(&rt, rt.alloc(), &coming, 1, &[REPLIES]);
}

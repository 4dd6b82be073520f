//! Connections that are served by a new service in memory.

use crush_server::{Listener, serve_connections};
use std::alloc::Global;
use std::process::Abort;
use tenant_service::Service;

/// Serves `connections` connections by a new service in memory, and asserts that all of them were
/// served. It is the one place that serves: what the contract of `serve_connections` says is long,
/// and each caller's proof has it.
pub(crate) fn assert_served<L: Listener>(
    rt: &impl Abort,
    alloc: Global,
    clients: &mut L,
    connections: u32,
)
    requires { L.can_accept clients.old }
{
    let mut service = Service::in_memory(alloc).expect(rt, "no memory");
    serve_connections(alloc, &mut service, clients, connections).expect(rt, "not all served");
}

/// Asserts that a client got `replies`.
pub(crate) fn assert_got(rt: &impl Abort, got: &[u8], replies: &[u8]) {
    assert_eq!(rt; got, replies);
}

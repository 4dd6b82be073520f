//! A connection to a new service over a store in memory.

use crate::same::assert_same_at;
use crate::streams::Stream;
use common_tests::streams::{Cuts, MANY, Reader, Writer};
use crush_http::{Buffers, ConnectionEnd, MemoryStore, Service, serve, serve_with};
use std::alloc::Global;
use std::io::{Read, Write};
use std::process::Abort;
use tenant_core::TenantStore;

/// Makes a service over a new store in memory.
pub(crate) fn new_service(rt: &impl Abort, alloc: Global) -> Service<MemoryStore> {
    Service::in_memory(alloc).expect(rt, "no memory")
}

/// Serves a connection as `serve_with` does, whose contract is long: each proof of a caller has it
/// with the caller's types, and this function has none.
pub(crate) fn end_of<T: TenantStore, R: Read, W: Write>(
    buffers: &mut Buffers,
    service: &mut Service<T>,
    reader: &mut R,
    writer: &mut W,
) -> ConnectionEnd {
    serve_with(buffers, service, reader, writer)
}

/// Serves a connection as `serve` does, with buffers of its own.
fn end_alone<T: TenantStore, R: Read, W: Write>(
    rt: &impl Abort,
    alloc: Global,
    service: &mut Service<T>,
    reader: &mut R,
    writer: &mut W,
) -> ConnectionEnd {
    serve(alloc, service, reader, writer).expect(rt, "no memory")
}

/// Serves a connection whose input is cut into reads by `cuts`, whose reader fails after `reads`
/// reads, and whose writer fails after `writes` writes. Returns how it ended, and what was written.
pub(crate) fn connect_to<T: TenantStore>(
    alloc: Global,
    buffers: &mut Buffers,
    service: &mut Service<T>,
    input: &[u8],
    cuts: Cuts,
    reads: usize,
    writes: usize,
) -> (ConnectionEnd, Vec<u8>) {
    let mut reader = Reader {
        rest: input,
        cuts,
        reads,
        interrupts: 0,
    };
    let mut writer = Writer::new(alloc, writes);
    let ended = end_of(buffers, service, &mut reader, &mut writer);
    let Writer { taken, writes: _ } = writer;
    (ended, taken)
}

/// Serves such a connection by a new service, with buffers of its own, and returns the same.
pub(crate) fn connect(
    rt: &impl Abort,
    alloc: Global,
    input: &[u8],
    cuts: Cuts,
    reads: usize,
    writes: usize,
) -> (ConnectionEnd, Vec<u8>) {
    let mut service = new_service(rt, alloc);
    let mut reader = Reader {
        rest: input,
        cuts,
        reads,
        interrupts: 0,
    };
    let mut writer = Writer::new(alloc, writes);
    let ended = end_alone(rt, alloc, &mut service, &mut reader, &mut writer);
    let Writer { taken, writes: _ } = writer;
    (ended, taken)
}

/// Asserts that `stream` gets its replies and that its connection ends as it says, with reads of at
/// most 1, 50 and 20,000 bytes.
pub(crate) fn assert_replies(
    rt: &impl Abort,
    alloc: Global,
    buffers: &mut Buffers,
    stream: &Stream,
) {
    let (input, ended, replies) = *stream;
    for cut in [1, 50, 20_000] {
        let mut service = new_service(rt, alloc);
        let cuts = Cuts::each(cut);
        let (found, written) = connect_to(alloc, buffers, &mut service, input, cuts, MANY, MANY);
        assert_same_at(rt, [cut as u64, 0], &found, &ended);
        assert_same_at(rt, [cut as u64, 1], &written.as_slice(), &replies);
    }
}

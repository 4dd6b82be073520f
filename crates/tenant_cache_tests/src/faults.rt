//! Replies where a call of the store below meets a fault, beside those of a run without a fault and
//! with nothing kept.

use crate::asking::{Asked, DOWN, IMPORT, POOL, ask, assert_count, assert_that};
use crate::counted::{Over, no_loads, watched_service};
use crate::watched::Fault;
use std::alloc::Global;
use std::process::Abort;
use tenant_core::TenantStore;
use tenant_service::Service;

/// Requests of two tenants, one of which is dropped and created again.
const ASKED: &[Asked] = &[
    ("PUT", "/t/a", ""),
    ("PUT", "/t/b", ""),
    ("POST", "/t/a/maps", IMPORT),
    ("POST", "/t/a/pools", POOL),
    ("GET", "/t/a", ""),
    ("POST", "/t/b/maps", IMPORT),
    ("POST", "/t/a/devices", DOWN),
    ("GET", "/t/a/pools/1/groups/3", ""),
    ("POST", "/t/a/devices", DOWN),
    ("GET", "/t/b", ""),
    ("DELETE", "/t/a", ""),
    ("GET", "/t/a", ""),
    ("PUT", "/t/a", ""),
    ("GET", "/t/a", ""),
    ("POST", "/t/a/maps", IMPORT),
    ("GET", "/t/a/maps/1", ""),
    ("GET", "/t/b/maps/1", ""),
];

/// Returns whether a service answers a request by anything but 503. Asserts that it then has the
/// reply of `alone`, a service that gets only the answered requests.
fn is_answered<T: TenantStore, U: TenantStore>(
    rt: &impl Abort,
    service: &mut Service<T>,
    alone: &mut Service<U>,
    asked: &Asked,
) -> bool {
    let reply = ask(service, asked);
    if reply.status == 503 {
        return false;
    }
    let expected = ask(alone, asked);
    assert_count(
        rt,
        asked,
        u64::from(reply.status),
        u64::from(expected.status),
    );
    assert_that(
        rt,
        reply.body.as_str() == expected.body.as_str(),
        asked.1,
        0,
    );
    true
}

/// Counts the requests of `ASKED` that a service answers 503.
fn count_unanswered<T: TenantStore, U: TenantStore>(
    rt: &impl Abort,
    service: &mut Service<T>,
    alone: &mut Service<U>,
) -> usize {
    let mut count: usize = 0;
    for asked in ASKED {
        if !is_answered(rt, service, alone, asked) {
            count = count.wrapping_add(1);
        }
    }
    count
}

/// Counts the requests of `ASKED` that are answered 503 where the store's call after `left` others
/// meets a fault. Asserts that the others have the replies that a service in memory gives to them
/// alone.
fn unanswered<const BYTES: u64>(
    rt: &impl Abort,
    alloc: Global,
    over: Over,
    left: u64,
    fault: Fault,
) -> usize {
    let loads = no_loads(rt, alloc);
    let mut service = watched_service::<BYTES>(rt, alloc, over, &loads, left, fault);
    let mut alone = Service::in_memory(alloc).expect(rt, "no memory");
    count_unanswered(rt, &mut service, &mut alone)
}

/// The bounds in bytes: only the tenant used last is kept, whatever its size; or others that fit
/// beside it; or all tenants are kept.
const ONE: u64 = 0;

const SOME: u64 = 15_000;

const ALL: u64 = 1_000_000;

/// A kind of store, the least number of calls that reach the store below where none meets a fault,
/// and the number of those calls that may fail with each request answered.
type Case = (Over, u64, u64);

const BOUND: Case = (Over::Bound, 16, 0);

/// Over a store in memory a change that was made is answered as made, though one of the 5 loads
/// that follow changes fails.
const MEMORY: Case = (Over::Memory, 27, 5);

/// Asserts that a call that fails, but not for good, leaves at most one request unanswered.
fn assert_one_fault<const BYTES: u64>(
    rt: &impl Abort,
    alloc: Global,
    (over, calls, expected): Case,
    fault: Fault,
) {
    let mut answered: u64 = 0;
    for left in 0..calls {
        let count = unanswered::<BYTES>(rt, alloc, over, left, fault);
        assert_that(rt, count <= 1, "call", left);
        if count == 0 {
            answered = answered.wrapping_add(1);
        }
    }
    assert_that(rt, answered == expected, "answered", answered);
}

/// Asserts the same of either fault.
fn assert_one<const BYTES: u64>(rt: &impl Abort, alloc: Global, case: Case) {
    assert_one_fault::<BYTES>(rt, alloc, case, Fault::NoMemory);
    assert_one_fault::<BYTES>(rt, alloc, case, Fault::Full);
}

#[test]
fn a_call_that_fails_changes_no_other_reply(rt: HostRuntime) {
    assert_one::<ONE>(&rt, rt.alloc(), BOUND);
    assert_one::<SOME>(&rt, rt.alloc(), BOUND);
    assert_one::<ALL>(&rt, rt.alloc(), BOUND);
    assert_one::<ALL>(&rt, rt.alloc(), MEMORY);
}

/// Asserts that no request is answered after a call that fails for good.
fn assert_rest<const BYTES: u64>(rt: &impl Abort, alloc: Global, (over, calls, _): Case) {
    let mut before = ASKED.len() + 1;
    for left in 0..calls {
        let count = unanswered::<BYTES>(rt, alloc, over, left, Fault::Failed);
        assert_that(rt, 0 < count && count <= before, "call", left);
        before = count;
    }
}

#[test]
fn a_store_that_latches_is_asked_no_more(rt: HostRuntime) {
    assert_rest::<ONE>(&rt, rt.alloc(), BOUND);
    assert_rest::<SOME>(&rt, rt.alloc(), BOUND);
    assert_rest::<ALL>(&rt, rt.alloc(), BOUND);
    assert_rest::<ALL>(&rt, rt.alloc(), MEMORY);
}

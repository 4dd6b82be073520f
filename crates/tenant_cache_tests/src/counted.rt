//! Services over a `CachedStore` over a store whose loads are counted, and one of whose calls may
//! meet a fault.

use crate::asking::{Asked, ask, assert_count, room_for};
use crate::watched::{Fault, Watched};
use std::alloc::{AllocError, Global};
use std::cell::Cell;
use std::process::Abort;
use std::rc::Rc;
use tenant_cache::{ByteBound, CachedStore};
use tenant_core::TenantStore;
use tenant_service::{MemoryStore, Service};

/// How much a store keeps, and where it gets it from after a change.
#[derive(Clone, Copy)]
pub(crate) enum Over {
    /// At most as many bytes are kept as the type says, and each change makes the inventory anew.
    Bound,
    /// All is kept, and shared with the store below after each change.
    Memory,
}

/// Makes a store over `below`, with room for `placements` placements.
pub(crate) fn cached<T: TenantStore + Drop, const BYTES: u64>(
    rt: &impl Abort,
    alloc: Global,
    over: Over,
    below: T,
    placements: usize,
) -> CachedStore<T, ByteBound<BYTES>> {
    let room = room_for(rt, placements);
    let made = match over {
        Over::Bound => CachedStore::over(alloc, below, room).ok(),
        Over::Memory => CachedStore::over_memory(alloc, below, room).ok(),
    };
    made.expect(rt, "no memory")
}

/// A service over a store that keeps ready what tenants have, over a watched one.
pub(crate) type Counted<const BYTES: u64> = Service<
    CachedStore<Watched<MemoryStore>, ByteBound<BYTES>>,
>;

/// Makes a watched store without a tenant, whose call after `left` others meets a fault.
fn watched(
    rt: &impl Abort,
    alloc: Global,
    loads: &Rc<Cell<u64>>,
    left: u64,
    fault: Fault,
) -> Watched<MemoryStore> {
    let shared: Result<Rc<Cell<u64>>, AllocError> = loads.clone();
    Watched {
        below: MemoryStore::new(alloc),
        loads: shared.expect(rt, "no memory"),
        left,
        fault,
        has_failed: false,
    }
}

/// Makes a service over a store that keeps tenants ready, over a watched store.
pub(crate) fn watched_service<const BYTES: u64>(
    rt: &impl Abort,
    alloc: Global,
    over: Over,
    loads: &Rc<Cell<u64>>,
    left: u64,
    fault: Fault,
) -> Counted<BYTES> {
    let below = watched(rt, alloc, loads, left, fault);
    Service::over(alloc, cached(rt, alloc, over, below, 16)).expect(rt, "no memory")
}

/// Makes a count of loads, which begins at 0.
pub(crate) fn no_loads(rt: &impl Abort, alloc: Global) -> Rc<Cell<u64>> {
    Rc::new(alloc, Cell::new(0)).expect(rt, "no memory")
}

/// A request, the status of its reply, and the number of calls of `load` that have then reached the
/// store below.
pub(crate) type Load = (Asked, u16, u64);

/// A kind of store, requests of a service over it, then further requests, and how many times those
/// are repeated.
pub(crate) type Loads = (Over, &'static [Load], &'static [Load], u32);

/// Asserts the status and the count of loads that each row says.
fn assert_rows<T: TenantStore>(
    rt: &impl Abort,
    service: &mut Service<T>,
    loads: &Rc<Cell<u64>>,
    rows: &[Load],
) {
    for (asked, status, count) in rows {
        let reply = ask(service, asked);
        assert_count(rt, asked, u64::from(reply.status), u64::from(*status));
        assert_count(rt, asked, loads.get(), *count);
    }
}

/// Asserts what the rows of a case say of a new service.
pub(crate) fn assert_loads<const BYTES: u64>(rt: &impl Abort, alloc: Global, case: &Loads) {
    let (over, rows, others, times) = *case;
    let loads = no_loads(rt, alloc);
    let mut service = watched_service::<BYTES>(rt, alloc, over, &loads, u64::MAX, Fault::Full);
    assert_rows(rt, &mut service, &loads, rows);
    for _ in 0..times {
        assert_rows(rt, &mut service, &loads, others);
    }
}

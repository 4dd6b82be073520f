//! Histories of a store, with what it has in its cache between its requests.

use crate::asking::{Asked, assert_that};
use crate::counted::{Over, cached};
use crush_choose::Slot;
use crush_map::ItemId;
use crush_pool::Placement;
use std::alloc::Global;
use std::process::Abort;
use std::rc::Rc;
use tenant_cache::{ByteBound, CachedStore};
use tenant_core::{CachedAnswer, CallParts, Query, TenantStore};
use tenant_service::{MemoryStore, Service};

/// A store between two requests, for each of which a service takes it and gives it back.
pub(crate) type Held = Option<CachedStore<MemoryStore, ByteBound<1_000_000_000>>>;

/// A part of a history.
#[derive(Clone, Copy)]
pub(crate) enum Step {
    /// A request, which is accepted.
    Asks(Asked),
    /// A group of a tenant's first pool lies on the first device by its rule, and is up on the
    /// second one, or on none.
    Places(&'static str, u64, (i32, Option<i32>)),
    /// The same, asked for three times: the first two requests place the group, and the third finds
    /// the placement that the second kept.
    Keeps(&'static str, u64, (i32, Option<i32>)),
    /// A group of a tenant's first pool has a placement, which is remembered.
    Remembers(&'static str, u64),
    /// A group of a tenant's first pool has the placement that is remembered, and no second one.
    Finds(&'static str, u64),
    /// The cache has no placement of a group of a tenant's pool, and nothing for the pool's usage.
    PlacesNone(&'static str, u64, u64),
    /// The groups of the first pool of tenant `a` that a device can touch.
    Touches(u64, &'static [u32]),
    /// The cache has no groups of a tenant's pool that a device can touch, and nothing for the
    /// pool's usage.
    TouchesNone(&'static str, u64, u64),
    /// The number of groups of that pool that move from the first version to the second.
    Moves(u64, u64, usize),
    /// All 8 groups of that pool move, each from the first up list to the second.
    MovesAll(u64, u64, &'static [Slot], &'static [Slot]),
    /// The cache has no moves of a tenant's pool between two versions, and nothing for the pool's
    /// usage.
    MovesNone(&'static str, u64, u64, u64),
}

/// Makes a store with room for `placements` placements.
pub(crate) fn new_store(rt: &impl Abort, alloc: Global, over: Over, placements: usize) -> Held {
    Some(cached(rt, alloc, over, MemoryStore::new(alloc), placements))
}

/// Takes the store.
pub(crate) fn taken<T>(rt: &impl Abort, held: &mut Option<T>) -> T {
    held.take().expect(rt, "no store")
}

/// Serves a request with these parts on the store, and asserts that it is accepted.
pub(crate) fn accept_parts<T: TenantStore + Drop>(
    rt: &impl Abort,
    alloc: Global,
    held: &mut Option<T>,
    method: &str,
    path: &str,
    body: &str,
) {
    let mut service = Service::over(alloc, taken(rt, held)).expect(rt, "no memory");
    let reply = service.request(CallParts {
        method: method.as_bytes(),
        path,
        body: body.as_bytes(),
    });
    assert_that(rt, reply.status < 300, path, u64::from(reply.status));
    *held = Some(service.into_store());
}

/// Serves the request `asked` in the same way.
pub(crate) fn accept<T: TenantStore + Drop>(
    rt: &impl Abort,
    alloc: Global,
    held: &mut Option<T>,
    asked: &Asked,
) {
    let (method, path, body) = *asked;
    accept_parts(rt, alloc, held, method, path, body);
}

/// Finds what the store has in its cache for a query. It is the one place that asks the cache: what
/// the contract of `cached` says is long, and each caller's proof has it.
fn found<'q, T: TenantStore>(
    store: &mut T,
    tenant: &str,
    query: &'q Query,
) -> Option<CachedAnswer<'q>> {
    let Some(both) = store.cached(tenant, query) else {
        return None;
    };
    let (_inventory, cached) = both;
    Some(cached)
}

/// Finds the placement that the store has in its cache of a group of a tenant's first pool.
pub(crate) fn placed<T: TenantStore>(
    rt: &impl Abort,
    store: &mut T,
    tenant: &str,
    group: u64,
) -> Rc<Placement> {
    match found(store, tenant, &Query::Group(1, group)) {
        Some(CachedAnswer::Placed(_, placement)) => placement,
        _ => rt.abort(),
    }
}

/// Returns whether a placement is on `device` by its rule, and up on `lead`, or on no device.
pub(crate) fn is_on(placement: &Placement, device: i32, lead: Option<i32>) -> bool {
    let own: Slot = Some(ItemId(device));
    let primary: Slot = lead.map(ItemId);
    let is_led = match primary {
        Some(_) => placement.up.as_slice() == [primary].as_slice(),
        None => placement.up.as_slice().is_empty(),
    };
    is_led && placement.raw.as_slice() == [own].as_slice() && placement.primary == primary
}

/// Finds a placement three times, and asserts that the store keeps it from the second time on.
fn kept<T: TenantStore>(rt: &impl Abort, store: &mut T, tenant: &str, group: u64) -> Rc<Placement> {
    let first = placed(rt, store, tenant, group);
    let second = placed(rt, store, tenant, group);
    let third = placed(rt, store, tenant, group);
    let is_alike = first.up.as_slice() == third.up.as_slice();
    assert_that(rt, is_alike && Rc::ptr_eq(&second, &third), tenant, group);
    third
}

/// Asserts that the store has nothing in its cache for a query of a pool, nor for the pool's usage.
/// `number` is that of the query that a failure shows.
fn assert_nothing<T: TenantStore>(
    rt: &impl Abort,
    store: &mut T,
    tenant: &str,
    pool: u64,
    query: Query,
    number: u64,
) {
    assert_that(rt, found(store, tenant, &query).is_none(), tenant, number);
    let usage = Query::Usage(pool);
    assert_that(rt, found(store, tenant, &usage).is_none(), tenant, pool);
}

/// Asserts which groups of a tenant's first pool a device can touch.
pub(crate) fn assert_touched<T: TenantStore>(
    rt: &impl Abort,
    store: &mut T,
    tenant: &str,
    device: u64,
    groups: &[u32],
) {
    match found(store, tenant, &Query::Impact(1, device)) {
        Some(CachedAnswer::Touched(_, _, touched)) => {
            assert_that(rt, touched.as_slice() == groups, tenant, device)
        }
        _ => rt.abort(),
    }
}

/// Asserts that what was found are the moves of `count` groups.
fn assert_moved(rt: &impl Abort, found: &Option<CachedAnswer<'_>>, count: usize, to: u64) {
    match found {
        Some(CachedAnswer::Moved(_, _, _, rows)) => assert_that(
            rt,
            rows.as_slice().len() == count,
            "to",
            to,
        ),
        _ => rt.abort(),
    }
}

/// Asserts that what was found are the moves of 8 groups, each from the up list `old` to `new`.
fn assert_rows(rt: &impl Abort, found: &Option<CachedAnswer<'_>>, old: &[Slot], new: &[Slot]) {
    let Some(CachedAnswer::Moved(_, _, _, rows)) = found else {
        return rt.abort();
    };
    let rows = rows.as_slice();
    assert_that(rt, rows.len() == 8, "moves of groups", 8);
    let mut group: u64 = 0;
    for row in rows {
        let is_moved = row.old.as_slice() == old && row.new.as_slice() == new;
        assert_that(
            rt,
            is_moved && u64::from(row.group) == group,
            "group",
            group,
        );
        group = group.wrapping_add(1);
    }
}

/// Asserts that the placement of a group is on `device`, and up on `lead`.
fn assert_placed(
    rt: &impl Abort,
    placement: &Placement,
    (device, lead): (i32, Option<i32>),
    tenant: &str,
    group: u64,
) {
    assert_that(rt, is_on(placement, device, lead), tenant, group);
}

/// Asserts that the store has the placement that is remembered.
fn assert_found<T: TenantStore>(
    rt: &impl Abort,
    store: &mut T,
    before: &Option<Rc<Placement>>,
    tenant: &str,
    group: u64,
) {
    let found = placed(rt, store, tenant, group);
    let is_same = match before {
        Some(before) => Rc::ptr_eq(before, &found),
        None => false,
    };
    assert_that(rt, is_same, tenant, group);
}

/// Asserts what a step says of the groups that devices can touch, or of those that move.
fn assert_report<T: TenantStore>(rt: &impl Abort, store: &mut T, step: &Step) {
    match step {
        Step::Touches(device, groups) => assert_touched(rt, store, "a", *device, groups),
        Step::Moves(from, to, count) => {
            let query = Query::Moves(1, *from, *to);
            let moved = found(store, "a", &query);
            assert_moved(rt, &moved, *count, *to)
        }
        Step::MovesAll(from, to, old, new) => {
            let query = Query::Moves(1, *from, *to);
            let moved = found(store, "a", &query);
            assert_rows(rt, &moved, old, new)
        }
        Step::TouchesNone(tenant, pool, device) => {
            let query = Query::Impact(*pool, *device);
            assert_nothing(rt, store, tenant, *pool, query, *device)
        }
        Step::MovesNone(tenant, pool, from, to) => {
            let query = Query::Moves(*pool, *from, *to);
            assert_nothing(rt, store, tenant, *pool, query, *to)
        }
        _ => rt.abort(),
    }
}

/// Asserts what a step says of the store's cache.
fn assert_step<T: TenantStore>(
    rt: &impl Abort,
    store: &mut T,
    before: &mut Option<Rc<Placement>>,
    step: &Step,
) {
    match step {
        Step::Places(tenant, group, place) => {
            assert_placed(
                rt,
                &placed(rt, store, tenant, *group),
                *place,
                tenant,
                *group,
            )
        }
        Step::Keeps(tenant, group, place) => {
            assert_placed(rt, &kept(rt, store, tenant, *group), *place, tenant, *group)
        }
        Step::Remembers(tenant, group) => *before = Some(placed(rt, store, tenant, *group)),
        Step::Finds(tenant, group) => assert_found(rt, store, before, tenant, *group),
        Step::PlacesNone(tenant, pool, group) => {
            let query = Query::Group(*pool, *group);
            assert_nothing(rt, store, tenant, *pool, query, *group)
        }
        _ => assert_report(rt, store, step),
    }
}

/// Does what a step says, or asserts it.
fn follow<T: TenantStore + Drop>(
    rt: &impl Abort,
    alloc: Global,
    held: &mut Option<T>,
    before: &mut Option<Rc<Placement>>,
    step: &Step,
) {
    if let Step::Asks(asked) = step {
        accept(rt, alloc, held, asked);
    } else {
        let Some(store) = held else {
            return rt.abort();
        };
        assert_step(rt, store, before, step);
    }
}

/// Follows the steps, over a new store.
fn follow_all(rt: &impl Abort, alloc: Global, over: Over, steps: &[Step]) {
    let mut held = new_store(rt, alloc, over, 1_024);
    let mut before = None;
    for step in steps {
        follow(rt, alloc, &mut held, &mut before, step);
    }
}

/// Asserts what each history says, of a store that keeps what tenants have and of one that shares
/// it with the store below.
pub(crate) fn assert_histories(rt: &impl Abort, alloc: Global, histories: &[&[Step]]) {
    for steps in histories {
        follow_all(rt, alloc, Over::Bound, steps);
        follow_all(rt, alloc, Over::Memory, steps);
    }
}

//! The number of loads of a store, while another one over it keeps ready what tenants have.

ghost use Rattle.std.specs.Prelude.{◌≡◌, false};

use crate::asking::{DOWN, IMPORT, POOL};
use crate::counted::{Load, Loads, Over, assert_loads, cached};
use crate::history::{Held, accept, taken};
use std::alloc::Global;
use std::process::Abort;
use std::rc::Rc;
use tenant_core::TenantStore;
use tenant_service::MemoryStore;
use tenant_state::Inventory;

/// More bytes than these tests keep.
const AMPLE: u64 = 1_000_000;

/// A new tenant.
const CREATED: &[Load] = &[(("PUT", "/t/a", ""), 201, 1)];

/// A request of the tenant that is repeated, and loads it once.
const AGAIN: &[Load] = &[(("GET", "/t/a", ""), 200, 2)];

/// What a tenant has after a change is kept in place of what it had. A tenant that is dropped is
/// forgotten, and one that is absent is never kept.
const CHANGED: &[Load] = &[
    (("PUT", "/t/a", ""), 201, 1),
    (("POST", "/t/a/maps", IMPORT), 201, 2),
    (("POST", "/t/a/pools", POOL), 201, 2),
    (("POST", "/t/a/devices", DOWN), 200, 2),
    (("POST", "/t/a/devices", DOWN), 200, 2),
    (("POST", "/t/a/maps", POOL), 400, 2),
    (("GET", "/t/a/pools/1/groups/0", ""), 200, 2),
    (("DELETE", "/t/a", ""), 200, 2),
    (("GET", "/t/a", ""), 404, 3),
    (("GET", "/t/a", ""), 404, 4),
    (("PUT", "/t/a", ""), 201, 5),
    (("GET", "/t/a/maps/1", ""), 404, 6),
    (("GET", "/t/a/maps/1", ""), 404, 6),
];

/// Over a store in memory a change is followed by one load below, which gives what that store has.
const IN_MEMORY: &[Load] = &[
    (("PUT", "/t/a", ""), 201, 1),
    (("POST", "/t/a/maps", IMPORT), 201, 3),
    (("POST", "/t/a/pools", POOL), 201, 4),
    (("POST", "/t/a/devices", DOWN), 200, 5),
    (("POST", "/t/a/devices", DOWN), 200, 5),
    (("POST", "/t/a/maps", POOL), 400, 5),
    (("GET", "/t/a/pools/1/groups/0", ""), 200, 5),
    (("DELETE", "/t/a", ""), 200, 5),
    (("GET", "/t/a", ""), 404, 6),
];

const CASES: [Loads; 3] = [
    (Over::Bound, CREATED, AGAIN, 1_000),
    (Over::Bound, CHANGED, &[], 0),
    (Over::Memory, IN_MEMORY, &[], 0),
];

#[test]
fn a_tenant_is_loaded_once_and_not_again_after_a_change(rt: HostRuntime) {
    for case in &CASES {
        assert_loads::<AMPLE>(&rt, rt.alloc(), case);
    }
}

/// Loads what a store has of tenant a, on its first version.
fn loaded<T: TenantStore>(rt: &impl Abort, store: &mut T) -> Rc<Inventory>
    requires { T.latched store.old ≡ false }
{
    match store.load("a") {
        Ok(Some(inventory)) if inventory.newest() == 1 => inventory,
        _ => rt.abort(),
    }
}

/// Returns whether a store, after a change, shares what the store below has of a tenant, and has no
/// copy. Asserts that the store below, which is given back, has this tenant and no other.
fn is_shared(rt: &impl Abort, alloc: Global, over: Over) -> bool {
    let mut held: Held = Some(cached(rt, alloc, over, MemoryStore::new(alloc), 1));
    accept(rt, alloc, &mut held, &("PUT", "/t/a", ""));
    accept(rt, alloc, &mut held, &("POST", "/t/a/maps", IMPORT));
    let mut store = taken(rt, &mut held);
    let kept = loaded(rt, &mut store);
    let mut below = store.into_below();
    assert!(rt; matches!(below.load("b"), Ok(None)));
    Rc::ptr_eq(&kept, &loaded(rt, &mut below))
}

#[test]
fn what_a_store_in_memory_has_after_a_change_is_shared(rt: HostRuntime) {
    assert!(rt; !is_shared(&rt, rt.alloc(), Over::Bound));
    assert!(rt; is_shared(&rt, rt.alloc(), Over::Memory));
}

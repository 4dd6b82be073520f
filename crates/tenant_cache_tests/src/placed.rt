//! Placements from a store's cache.

use crate::asking::{Asked, DOWN, IMPORT, IMPORT_OF_9, POOL, assert_that};
use crate::counted::Over;
use crate::history::{Held, Step, accept, assert_histories, is_on, new_store, placed};
use std::alloc::Global;
use std::process::Abort;
use std::rc::Rc;
use tenant_core::TenantStore;

/// The body of an import of a map with two devices, of which only the first is in its bucket.
pub(crate) const IMPORT_OF_TWO: &str =
    "{\"request\":\"m1\",\"text\":\"tunable choose_local_tries 0\\ntunable choose_local_fallback_tries 0\\ntunable choose_total_tries 50\\ntunable chooseleaf_descend_once 1\\ntunable chooseleaf_vary_r 1\\ntunable chooseleaf_stable 1\\ndevice 0 osd.0\\ndevice 1 osd.1\\ntype 0 osd\\ntype 1 host\\ntype 10 root\\nroot default {\\n id -1\\n alg uniform\\n hash 0\\n item osd.0 weight 1.0\\n}\\nrule all {\\n id 0\\n type replicated\\n step take default\\n step choose firstn 0 type osd\\n step emit\\n}\\n\"}";

/// The body that gives group 3 of the pool device 1 in place of device 0, and no other exception.
pub(crate) const EXCEPTED: &str =
    "{\"request\":\"e1\",\"id\":1,\"exceptions\":[{\"from\":0,\"group\":3,\"to\":1}]}";

/// The body after which the pool has no exception.
pub(crate) const NOT_EXCEPTED: &str = "{\"request\":\"e2\",\"id\":1,\"exceptions\":[]}";

/// A tenant that has a pool of 8 groups on a map with one device.
const TENANT: [Asked; 3] = [
    ("PUT", "/t/a", ""),
    ("POST", "/t/a/maps", IMPORT),
    ("POST", "/t/a/pools", POOL),
];

/// Makes a store with this tenant, and with room for `placements` placements.
fn with_tenant(rt: &impl Abort, alloc: Global, placements: usize) -> Held {
    let mut held = new_store(rt, alloc, Over::Bound, placements);
    for asked in &TENANT {
        accept(rt, alloc, &mut held, asked);
    }
    held
}

/// Asserts that a group has one placement, and whether it is kept while another group is placed.
/// The first two requests for a group place it, since the map's text is short.
fn assert_one<T: TenantStore>(rt: &impl Abort, held: &mut Option<T>, is_kept: bool) {
    let Some(store) = held else {
        return rt.abort();
    };
    let _placed = placed(rt, store, "a", 0);
    let _placed = placed(rt, store, "a", 7);
    let first = placed(rt, store, "a", 0);
    let other = placed(rt, store, "a", 7);
    let again = placed(rt, store, "a", 0);
    let last = placed(rt, store, "a", 0);
    let is_one = first.seed == again.seed && first.seed != other.seed;
    assert_that(rt, is_one && Rc::ptr_eq(&again, &last), "a", 0);
    assert_that(rt, Rc::ptr_eq(&first, &again) == is_kept, "is kept", 0);
    assert_that(rt, is_on(&first, 0, Some(0)), "first", 0);
    assert_that(rt, is_on(&other, 0, Some(0)), "other", 7);
    assert_that(rt, is_on(&again, 0, Some(0)), "again", 0);
}

/// With room for one placement each of two groups is placed again by turns.
#[test]
fn a_group_has_one_placement_whatever_is_kept(rt: HostRuntime) {
    for (room, is_kept) in &[(1, false), (1_024, true)] {
        let mut held = with_tenant(&rt, rt.alloc(), *room);
        assert_one(&rt, &mut held, *is_kept);
    }
}

/// After a change of states groups are placed anew.
const STATES: &[Step] = &[
    Step::Asks(("PUT", "/t/a", "")),
    Step::Asks(("POST", "/t/a/maps", IMPORT)),
    Step::Asks(("POST", "/t/a/pools", POOL)),
    Step::Places("a", 3, (0, Some(0))),
    Step::Asks(("POST", "/t/a/devices", DOWN)),
    Step::Places("a", 3, (0, None)),
];

/// After a change of exceptions groups are placed anew. Other groups, and the same pool of another
/// tenant, have their placements still; once the pool has no exception again, the placement that
/// was kept before is found again.
const EXCEPTIONS: &[Step] = &[
    Step::Asks(("PUT", "/t/a", "")),
    Step::Asks(("POST", "/t/a/maps", IMPORT_OF_TWO)),
    Step::Asks(("POST", "/t/a/pools", POOL)),
    Step::Asks(("PUT", "/t/b", "")),
    Step::Asks(("POST", "/t/b/maps", IMPORT_OF_TWO)),
    Step::Asks(("POST", "/t/b/pools", POOL)),
    Step::Keeps("a", 3, (0, Some(0))),
    Step::Remembers("a", 3),
    Step::Asks(("POST", "/t/a/pools/exceptions", EXCEPTED)),
    Step::Keeps("a", 3, (0, Some(1))),
    Step::Keeps("a", 4, (0, Some(0))),
    Step::Finds("b", 3),
    Step::Asks(("POST", "/t/a/pools/exceptions", NOT_EXCEPTED)),
    Step::Keeps("a", 3, (0, Some(0))),
    Step::Finds("a", 3),
];

/// A tenant that is created again has placements of its own.
const MADE_AGAIN: &[Step] = &[
    Step::Asks(("PUT", "/t/a", "")),
    Step::Asks(("POST", "/t/a/maps", IMPORT)),
    Step::Asks(("POST", "/t/a/pools", POOL)),
    Step::Places("a", 3, (0, Some(0))),
    Step::Asks(("DELETE", "/t/a", "")),
    Step::PlacesNone("a", 1, 3),
    Step::Asks(("PUT", "/t/a", "")),
    Step::Asks(("POST", "/t/a/maps", IMPORT_OF_9)),
    Step::Asks(("POST", "/t/a/pools", POOL)),
    Step::Places("a", 3, (9, Some(9))),
];

/// The cache has nothing of groups, pools and tenants that aren't there.
const NOT_THERE: &[Step] = &[
    Step::Asks(("PUT", "/t/a", "")),
    Step::Asks(("POST", "/t/a/maps", IMPORT)),
    Step::Asks(("POST", "/t/a/pools", POOL)),
    Step::Places("a", 7, (0, Some(0))),
    Step::PlacesNone("a", 1, 8),
    Step::PlacesNone("a", 2, 7),
    Step::PlacesNone("b", 1, 7),
];

#[test]
fn each_change_is_seen_in_the_placements_at_hand(rt: HostRuntime) {
    let histories = [STATES, EXCEPTIONS, MADE_AGAIN, NOT_THERE];
    assert_histories(&rt, rt.alloc(), &histories);
}

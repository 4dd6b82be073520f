//! Tenants that are kept within a number of bytes.

use crate::asking::IMPORT;
use crate::counted::{Load, Loads, Over, assert_loads};
use tenant_state::size::INVENTORY_BYTES;

/// Room for two tenants that were just created.
const TWO: u64 = 2 * INVENTORY_BYTES;

/// Three tenants by turns, of which two are kept: the tenant used least recently is forgotten.
const OF_THREE: &[Load] = &[
    (("PUT", "/t/a", ""), 201, 1),
    (("PUT", "/t/b", ""), 201, 2),
    (("PUT", "/t/c", ""), 201, 3),
    (("GET", "/t/a", ""), 200, 4),
    (("GET", "/t/b", ""), 200, 5),
    (("GET", "/t/a", ""), 200, 5),
    (("GET", "/t/b", ""), 200, 5),
    (("GET", "/t/a", ""), 200, 5),
    (("GET", "/t/c", ""), 200, 6),
    (("GET", "/t/a", ""), 200, 6),
    (("GET", "/t/b", ""), 200, 7),
    (("GET", "/t/c", ""), 200, 8),
    (("GET", "/t/a", ""), 200, 9),
    (("GET", "/t/b", ""), 200, 10),
];

/// Tenant a with a map is larger than the bound; it is kept while it is the one used last.
const LARGER: &[Load] = &[
    (("PUT", "/t/a", ""), 201, 1),
    (("PUT", "/t/b", ""), 201, 2),
    (("GET", "/t/b", ""), 200, 3),
    (("GET", "/t/a", ""), 200, 4),
    (("POST", "/t/a/maps", IMPORT), 201, 4),
    (("GET", "/t/a", ""), 200, 4),
    (("GET", "/t/a", ""), 200, 4),
    (("GET", "/t/b", ""), 200, 5),
    (("GET", "/t/b", ""), 200, 5),
    (("GET", "/t/a", ""), 200, 6),
    (("GET", "/t/a", ""), 200, 6),
    (("GET", "/t/b", ""), 200, 7),
];

const CASES: [Loads; 2] = [
    (Over::Bound, OF_THREE, &[], 0),
    (Over::Bound, LARGER, &[], 0),
];

#[test]
fn tenants_used_least_recently_are_given_up_but_the_one_used_last(rt: HostRuntime) {
    for case in &CASES {
        assert_loads::<TWO>(&rt, rt.alloc(), case);
    }
}

//! Groups that a device can touch, from a store's cache.

use crate::asking::POOL;
use crate::history::{Step, assert_histories};
use crate::placed::{EXCEPTED, IMPORT_OF_TWO};

/// The body that takes device 0 out.
pub(crate) const OUT: &str = "{\"request\":\"d2\",\"devices\":[{\"id\":0,\"reweight\":0}]}";

/// All groups of the pool.
pub(crate) const ALL: [u32; 8] = [0, 1, 2, 3, 4, 5, 6, 7];

/// The touched groups before and after each change.
const EACH_CHANGE: &[Step] = &[
    Step::Asks(("PUT", "/t/a", "")),
    Step::Asks(("POST", "/t/a/maps", IMPORT_OF_TWO)),
    Step::Asks(("POST", "/t/a/pools", POOL)),
    Step::Asks(("GET", "/t/a", "")),
    Step::Touches(0, &ALL),
    Step::Touches(1, &[]),
    Step::Asks(("POST", "/t/a/pools/exceptions", EXCEPTED)),
    Step::Touches(0, &ALL),
    Step::Touches(1, &[3]),
    Step::Asks(("POST", "/t/a/devices", OUT)),
    Step::Touches(1, &[3]),
    Step::Touches(0, &[]),
    Step::TouchesNone("a", 1, 2),
    Step::TouchesNone("a", 2, 0),
    Step::TouchesNone("b", 1, 0),
];

#[test]
fn each_change_is_seen_in_what_is_at_hand(rt: HostRuntime) {
    assert_histories(&rt, rt.alloc(), &[EACH_CHANGE]);
}

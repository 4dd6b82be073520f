//! Groups that move between versions, from a store's cache.

use crate::asking::POOL;
use crate::history::{Step, assert_histories};
use crate::placed::{EXCEPTED, IMPORT_OF_TWO, NOT_EXCEPTED};
use crate::touched::OUT;
use crush_choose::Slot;
use crush_map::ItemId;

/// The body of an import of a map with two devices, of which the hash of a group chooses one.
const IMPORT_OF_BOTH: &str =
    "{\"request\":\"m2\",\"text\":\"tunable choose_local_tries 0\\ntunable choose_local_fallback_tries 0\\ntunable choose_total_tries 50\\ntunable chooseleaf_descend_once 1\\ntunable chooseleaf_vary_r 1\\ntunable chooseleaf_stable 1\\ndevice 0 osd.0\\ndevice 1 osd.1\\ntype 0 osd\\ntype 1 host\\ntype 10 root\\nroot default {\\n id -1\\n alg uniform\\n hash 0\\n item osd.0 weight 1.0\\n item osd.1 weight 1.0\\n}\\nrule all {\\n id 0\\n type replicated\\n step take default\\n step choose firstn 0 type osd\\n step emit\\n}\\n\"}";

/// The body that puts device 0 in again.
const IN: &str = "{\"request\":\"d3\",\"devices\":[{\"id\":0,\"reweight\":65536}]}";

/// The body that takes device 0 out once more.
const OUT_AGAIN: &str = "{\"request\":\"d4\",\"devices\":[{\"id\":0,\"reweight\":0}]}";

/// The number of the 8 groups that have device 1 on version 2: 0, 2, 6 and 7, as Ceph's osdmaptool
/// says.
const SOME: usize = 4;

/// An up list of device 1 alone.
const ON_1: [Slot; 1] = [Some(ItemId(1))];

/// With device 0 out no group has a device on version 1, and each has device 1 on version 2; with
/// it in again some groups stay on it.
const EACH_CHANGE: &[Step] = &[
    Step::Asks(("PUT", "/t/a", "")),
    Step::Asks(("POST", "/t/a/maps", IMPORT_OF_TWO)),
    Step::Asks(("POST", "/t/a/pools", POOL)),
    Step::Asks(("POST", "/t/a/maps", IMPORT_OF_BOTH)),
    Step::Asks(("GET", "/t/a", "")),
    Step::Moves(1, 1, 0),
    Step::Moves(1, 2, SOME),
    Step::Asks(("POST", "/t/a/devices", OUT)),
    Step::MovesAll(1, 2, &[], &ON_1),
    Step::MovesAll(1, 2, &[], &ON_1),
    Step::MovesAll(2, 1, &ON_1, &[]),
    Step::Asks(("POST", "/t/a/devices", IN)),
    Step::Moves(1, 2, SOME),
    Step::Moves(2, 1, SOME),
    Step::Asks(("POST", "/t/a/pools/exceptions", EXCEPTED)),
    Step::Asks(("POST", "/t/a/devices", OUT_AGAIN)),
    Step::Moves(1, 2, 8),
    Step::Asks(("POST", "/t/a/pools/exceptions", NOT_EXCEPTED)),
    Step::MovesAll(1, 2, &[], &ON_1),
];

/// Moves of one version, and of versions, pools and tenants that aren't there.
const NOT_THERE: &[Step] = &[
    Step::Asks(("PUT", "/t/a", "")),
    Step::Asks(("POST", "/t/a/maps", IMPORT_OF_TWO)),
    Step::Asks(("POST", "/t/a/pools", POOL)),
    Step::Asks(("GET", "/t/a", "")),
    Step::Moves(1, 1, 0),
    Step::MovesNone("a", 1, 1, 2),
    Step::MovesNone("a", 1, 0, 1),
    Step::MovesNone("a", 2, 1, 1),
    Step::MovesNone("b", 1, 1, 1),
];

#[test]
fn each_change_is_seen_in_the_moves_at_hand(rt: HostRuntime) {
    assert_histories(&rt, rt.alloc(), &[EACH_CHANGE, NOT_THERE]);
}

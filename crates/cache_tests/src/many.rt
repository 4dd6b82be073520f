//! More maps than there is room for, asked in turn.

use crate::asking::{Asked, FIRST, How, ask, assert_placed, cache_for};

/// How many maps there are, each with a device of its own.
const MAPS: u32 = 300;

#[test]
fn each_of_many_maps_has_its_own_placements(rt: HostRuntime) {
    let alloc = rt.alloc();
    for capacity in [1, 1_024] {
        let mut cache = cache_for(&rt, alloc, capacity);
        for place in 0..2 * MAPS {
            let device = place % MAPS;
            let asked = Asked { device, ..FIRST };
            let answer = ask(&rt, alloc, &mut cache, &asked, 0, How::ByContent);
            assert_placed(&rt, &answer, 1, device, true);
        }
    }
}

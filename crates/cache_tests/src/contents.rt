//! Contents that are too many.

use crate::asking::{How, LONG, ask, assert_placed, cache_for, give_numbers, is_one};
use crate::same::assert_same;
use crush_cache::PlacementCache;
use std::alloc::Global;
use std::process::Abort;

/// Gives numbers to `count` contents, where there is memory for them.
fn give_some(rt: &impl Abort, alloc: Global, cache: &mut PlacementCache, count: u32) {
    match give_numbers(rt, alloc, cache, count) {
        Ok(()) => {}
        Err(_) => rt.abort(),
    }
}

/// With the 257th content all placements are gone, and no number is given again.
#[test]
fn the_content_after_the_last_empties_the_cache(rt: HostRuntime) {
    let alloc = rt.alloc();
    let mut cache = cache_for(&rt, alloc, 1_024);
    let first = ask(&rt, alloc, &mut cache, &LONG, 3, How::ByContent);
    give_some(&rt, alloc, &mut cache, 255);
    assert!(rt; cache.has(first.1));
    let kept = ask(&rt, alloc, &mut cache, &LONG, 3, How::ByContent);
    assert!(rt; is_one(&rt, &first, &kept));
    give_some(&rt, alloc, &mut cache, 256);
    assert!(rt; !cache.has(first.1));
    let again = ask(&rt, alloc, &mut cache, &LONG, 3, How::ByContent);
    assert!(rt; !is_one(&rt, &first, &again));
    assert_placed(&rt, &again, 4, 0, true);
    assert!(rt; cache.has(again.1));
    assert!(rt; 255 < again.1);
}

/// A number whose content is gone names no other: the placement is made anew.
#[test]
fn a_number_whose_content_is_gone_is_of_no_use(rt: HostRuntime) {
    let alloc = rt.alloc();
    let mut cache = cache_for(&rt, alloc, 1_024);
    let first = ask(&rt, alloc, &mut cache, &LONG, 3, How::ByContent);
    let gone = ask(&rt, alloc, &mut cache, &LONG, 3, How::ByNumber(256));
    assert_same(&rt, &gone.1, &first.1);
    assert!(rt; !cache.has(gone.1));
    assert!(rt; !is_one(&rt, &first, &gone));
    assert_placed(&rt, &gone, 4, 0, true);
}

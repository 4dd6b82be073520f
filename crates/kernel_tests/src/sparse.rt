//! The places that a permutation stores.

use crate::buckets::{next, random_id};
use crate::drafts::{ONE, entries};
use crate::plain;
use crate::same::assert_same;
use crush_bucket::{ListBucket, Perm, Picker, TreeBucket, UniformBucket, can_be_asked};
use crush_map::{ItemId, has_equal_weights};
use std::alloc::{AllocError, Global};
use std::process::Abort;

/// `hash3(0, -1, 0) mod 3` is 2, so that places 0 and 2 change contents, and nothing else does.
#[test]
fn a_uniform_bucket_keeps_what_was_exchanged(rt: HostRuntime) -> Result<(), AllocError> {
    let alloc = rt.alloc();
    let id = ItemId(-1);
    let entries = entries(alloc, &[(5, ONE), (6, ONE), (7, ONE)])?;
    assert!(rt; can_be_asked(&entries) && has_equal_weights(&entries));
    let bucket = UniformBucket::build(alloc, id, &entries)?;
    let mut perm = Perm::build(alloc, id, entries.len())?;
    assert_same(&rt, &perm.kept(), &0);
    assert_same(&rt, &bucket.pick(&mut perm, 0, 0), &ItemId(7));
    assert_same(&rt, &perm.kept(), &2);
    assert_same(&rt, &bucket.pick(&mut perm, 0, 3), &ItemId(7));
    assert_same(&rt, &perm.kept(), &2);
    Ok(())
}

/// A list and a tree don't change what a permutation has stored.
#[test]
fn lists_and_trees_keep_nothing(rt: HostRuntime) -> Result<(), AllocError> {
    let alloc = rt.alloc();
    let id = ItemId(-1);
    let entries = entries(alloc, &[(0, ONE), (1, ONE), (2, ONE), (3, ONE), (4, ONE)])?;
    assert!(rt; can_be_asked(&entries) && entries.len() > 3);
    let (list, tree) = (
        ListBucket::build(alloc, id, &entries)?,
        TreeBucket::build(alloc, id, &entries)?,
    );
    let mut perm = Perm::build(alloc, id, entries.len())?;
    list.pick(&mut perm, 5, 1);
    tree.pick(&mut perm, 5, 1);
    assert_same(&rt, &perm.kept(), &0);
    perm.member(5, 3);
    let kept = perm.kept();
    assert!(rt; kept > 0 && kept <= 8);
    list.pick(&mut perm, 6, 1);
    tree.pick(&mut perm, 6, 1);
    assert_same(&rt, &perm.kept(), &kept);
    Ok(())
}

/// Counts the places at which a permutation differs from 0, 1, .. after `exchanges` exchanges.
fn plain_kept(
    alloc: Global,
    id: ItemId,
    size: usize,
    x: u32,
    exchanges: usize,
) -> Result<usize, AllocError> {
    Ok(
        plain::exchanged(alloc, id, size, x, exchanges)?
            .iter()
            .enumerate()
            .filter(|(n, place)| *n != **place)
            .count(),
    )
}

/// 200 permutations, each asked ten times for few inputs, store what the exchanges moved, and after
/// a first question few places.
#[test]
fn a_perm_keeps_what_its_plain_form_moves(rt: HostRuntime) -> Result<(), AllocError> {
    let alloc = rt.alloc();
    let mut seed = 2_027;
    for _ in 0..200 {
        let size = 1 + (next(&mut seed) % 64) as usize;
        let id = random_id(&mut seed);
        let mut perm = Perm::build(alloc, id, size)?;
        let (mut last, mut exchanges) = (0, 0);
        'questions: for _ in 0..10 {
            let (x, place) = (next(&mut seed) % 3, next(&mut seed) as usize % size);
            perm.member(x, place);
            if x != last || exchanges == 0 {
                exchanges = 0;
                assert!(rt; perm.kept() <= 2 * (place + 1));
            }
            exchanges = exchanges.max((place + 1).min(size - 1));
            last = x;
            let kept = plain_kept(alloc, id, size, x, exchanges)?;
            assert_same(&rt, &perm.kept(), &kept);
        }
    }
    Ok(())
}

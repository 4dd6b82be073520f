//! The groups of a pool whose up lists differ from those that are kept.

ghost use Rattle.std.specs.List.{range_with_len};
ghost use Rattle.std.specs.Prelude.{◌≡◌, ◌≤◌, ◌*◌, Some, IfOk};
ghost use Rattle.crush_choose.specs.declared.limits.TheConstants.{SIZE_LIMIT};
ghost use Rattle.crush_pool.specs.Placers.{PoolOnMap};
ghost use Rattle.crush_pool.specs.declared.limits.TheConstants.{GROUP_LIMIT};
ghost use Rattle.crush_report.specs.Private.Parts.{list_at};
ghost use Rattle.crush_report.specs.UpLists.{AreUpListsOn};
ghost use Rattle.crush_report.specs.Moves as spec;
ghost use Rattle.crush_report.specs.OnMaps.{up_on};
ghost use Rattle.crush_report.specs.Reports.{moves};

use crate::up_lists::{UpLists, WORDS_KEPT};
use crate::{MoveRow, UpRun, move_between};
use crush_choose::Slot;
use crush_choose::limits::SIZE_LIMIT;
use crush_map::Sequence;
use crush_pool::Placer;
use std::alloc::{AllocError, Global};

/// Finds which of the first `count` groups of a pool have another up list than the one that is
/// kept, in order; `new` is room for one. `Err(AllocError)`: an allocation failed.
#[tactic(auto, using(crate::proofs::Groups::moves_more))]
fn moved_rows(
    alloc: Global,
    old: &UpLists,
    run: &mut UpRun,
    new: &mut Vec<Slot>,
    count: u32,
) -> Result<Sequence<MoveRow>, AllocError>
    ensures { IfOk result (λ rows. rows ≡ spec.move_rows (list_at old.now) (up_on run.old) (range_with_len 0 count)) }
{
    let mut rows = Vec::new(alloc);
    for group in 0..count {
        run.set_up(new, group)?;
        let moved = move_between(alloc, group, old.list(group), new.as_slice())?;
        if let Some(row) = moved {
            rows.push(row)?;
        }
    }
    Ok(Sequence::new(rows))
}

/// Finds the groups whose up lists differ between the map of which lists are kept and another, in
/// order. A group of which no list is kept had an empty one. `Err(AllocError)`: an allocation
/// failed.
pub fn moves_from(
    alloc: Global,
    old: &UpLists,
    to: &Placer,
) -> Result<Sequence<MoveRow>, AllocError>
    ensures rows { IfOk result (λ rows. (p : PoolOnMap) → AreUpListsOn p old.now → p.states ≡ to.now.states → p.pool ≡ to.now.pool → p.pairs ≡ to.now.pairs
        → Some rows ≡ moves p.map to.now.map p.states p.pool p.pairs) }
    ensures gained { IfOk result (λ rows. spec.gained_in rows ≤ SIZE_LIMIT * GROUP_LIMIT) }
{
    let mut run = UpRun::build(alloc, &*to, WORDS_KEPT)?;
    let mut new = Vec::with_capacity(alloc, SIZE_LIMIT)?;
    let count = to.pool_parts().pg_num;
    let rows = moved_rows(alloc, old, &mut run, &mut new, count)?;
    Ok(rows)
}

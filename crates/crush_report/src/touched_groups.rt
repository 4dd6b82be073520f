//! The groups of a pool that a device can touch.

ghost use Rattle.std.specs.Prelude.{◌≡◌, Some, IfOk};
ghost use Rattle.crush_bucket.specs.Tables.{scratch_of, tables_of};
ghost use Rattle.crush_report.specs.OnMaps.{touches_on};
ghost use Rattle.crush_report.specs.Private.Places.{AreTraced};
ghost use Rattle.crush_report.specs.Reports.{impact};

use crate::answers::{TraceMarks, is_traced};
use crush_bucket::Scratch;
use crush_choose::Out;
use crush_map::Sequence;
use crush_pool::Placer;
use std::alloc::{AllocError, Global};

/// Returns whether a pair of a group leads to a device, or the device is in the trace of the group.
/// The rule runs only where no pair does and the trace for the group's place isn't stored.
fn is_touched(
    placer: &Placer,
    traced: &TraceMarks,
    scratch: &mut Scratch,
    out: &mut Out,
    device: u32,
    group: u32,
) -> bool
    requires traced { AreTraced placer.now device traced.now }
    requires fits { scratch.old ≡ scratch_of (tables_of placer.now.map) }
    ensures touched { result ≡ touches_on placer.now device group }
    ensures fits { scratch.new ≡ scratch_of (tables_of placer.now.map) }
{
    if placer.exceptions().lead_to(group, device) {
        return true;
    }
    match traced.kept(placer, group) {
        Some(found) => found,
        None => is_traced(placer, scratch, out, device, group),
    }
}

/// Finds the groups of a pool in whose trace a device is, and those of which a pair leads to it, in
/// order. `Err(AllocError)`: an allocation failed.
///
/// A lower reweight of the device leaves the raw and the up list of each other group as they are
/// (`laws::groups_that_move_are_in_an_impact_list`).
#[tactic(auto, using(crate::proofs::Groups::touched_more))]
pub fn impact_with(alloc: Global, placer: &Placer, device: u32) -> Result<Sequence<u32>, AllocError>
    ensures { IfOk result (λ found. Some found ≡ impact placer.now.map placer.now.states placer.now.pool placer.now.pairs device) }
{
    let mut scratch = Scratch::for_many(alloc, placer.tables())?;
    let mut out = Out::build(alloc)?;
    let traced = TraceMarks::build(alloc, placer, &mut scratch, &mut out, device)?;
    let mut found = Vec::new(alloc);
    for group in 0..placer.pool_parts().pg_num {
        if is_touched(placer, &traced, &mut scratch, &mut out, device, group) {
            found.push(group)?;
        }
    }
    Ok(Sequence::new(found))
}

//! What is answered once for all groups with the same place: they have the same seed, so the pool's
//! rule answers the same for them. Exceptions are of single groups, and come after.

ghost use Rattle.std.specs.Prelude.{◌≡◌};
ghost use Rattle.crush_bucket.specs.Tables.{scratch_of, tables_of};
ghost use Rattle.crush_map.specs.Faults.{has_number};
ghost use Rattle.crush_report.specs.OnMaps.{trace_on};

use crush_bucket::Scratch;
use crush_choose::laws::traces_ascend;
use crush_choose::{Out, Slot};
use crush_pool::laws::groups_have_the_seeds_of_their_places;
use crush_pool::{Placer, PoolParts};
use std::alloc::{AllocError, Global};

// ---- answers

/// Returns whether there are fewer places than groups, and a word for each slot of an answer, and
/// one more, for each place are at most `most` words a group.
fn are_few(parts: &PoolParts, most: u32) -> bool {
    let words = u64::from(most.saturating_mul(parts.pg_num));
    parts.pgp_num < parts.pg_num && u64::from(parts.pgp_num) <= words / (u64::from(parts.size) + 1)
}

/// What a pool's rule answers for each place of the pool's groups, or nothing: where each group has
/// a place of its own, and where it would take too much memory.
#[derive(Drop)]
pub(crate) struct Answers {
    /// The answers, one behind the other.
    slots: Vec<Slot>,
    /// Where the answer for each place begins, and where that for the last place ends. Empty where
    /// no answer is stored.
    starts: Vec<usize>,
}

impl Answers {
    ghost use Rattle.std.specs.Prelude.{◌≡◌, IfOk, IfSome};
    ghost use Rattle.crush_bucket.specs.Tables.{scratch_of, tables_of};
    ghost use Rattle.crush_report.specs.OnMaps.{answer_on};
    ghost use Rattle.crush_report.specs.Private.Places.{AreAnswers};

    /// Makes the answers for all places, if there are fewer places than groups and their answers
    /// take at most `most` words of 8 bytes a group. `Err(AllocError)`: an allocation failed.
    pub(crate) fn build(
        alloc: Global,
        placer: &Placer,
        scratch: &mut Scratch,
        out: &mut Out,
        most: u32,
    ) -> Result<Answers, AllocError>
        requires fits { scratch.old ≡ scratch_of (tables_of placer.now.map) }
        ensures answers { IfOk result (λ a. AreAnswers placer.now a) }
        ensures fits { scratch.new ≡ scratch_of (tables_of placer.now.map) }
    {
        let parts = placer.pool_parts();
        if !are_few(parts, most) {
            return Ok(Answers {
                slots: Vec::new(alloc),
                starts: Vec::new(alloc),
            });
        }
        let places = parts.pgp_num;
        let mut slots = Vec::with_capacity(alloc, places as usize * parts.size as usize)?;
        let mut starts = Vec::with_capacity(alloc, places as usize + 1)?;
        starts.push(0)?;
        for place in 0..places {
            placer.run_next(scratch, out, place);
            slots.extend_from_slice(out.items())?;
            starts.push(slots.len())?;
        }
        Ok(Answers { slots, starts })
    }

    /// Returns what the rule of the placer's pool answers for a group, if that is stored: it is the
    /// answer for the group's place.
    pub(crate) fn kept(&self, placer: &Placer, group: u32) -> Option<&[Slot]>
        requires { AreAnswers placer.now self.now }
        ensures { IfSome result (λ raw. raw.now ≡ answer_on placer.now group) }
    {
        if self.starts.is_empty() {
            return None;
        }
        groups_have_the_seeds_of_their_places();
        let place = placer.pool().place_of(group) as usize;
        let start = *self.starts.get(place)?;
        let end = *self.starts.get(place + 1)?;
        self.slots.get(start..end)
    }
}

// ---- traces

/// Returns whether a device is in the trace of a group, as one of many in order: runs the pool's
/// rule.
pub(crate) fn is_traced(
    placer: &Placer,
    scratch: &mut Scratch,
    out: &mut Out,
    device: u32,
    group: u32,
) -> bool
    requires fits { scratch.old ≡ scratch_of (tables_of placer.now.map) }
    ensures traced { result ≡ has_number (trace_on placer.now group) device }
    ensures fits { scratch.new ≡ scratch_of (tables_of placer.now.map) }
{
    traces_ascend();
    placer.look_ahead(scratch, group);
    placer.touches(scratch, out, group, device)
}

/// Whether a device is in the trace for each place of a pool's groups, or nothing where each group
/// has a place of its own.
#[derive(Drop)]
pub(crate) struct TraceMarks {
    found: Vec<bool>,
}

impl TraceMarks {
    ghost use Rattle.std.specs.Prelude.{◌≡◌, IfOk, IfSome, ℕ};
    ghost use Rattle.crush_map.specs.Faults.{has_number};
    ghost use Rattle.crush_bucket.specs.Tables.{scratch_of, tables_of};
    ghost use Rattle.crush_report.specs.OnMaps.{trace_on};
    ghost use Rattle.crush_report.specs.Private.Places.{AreTraced};

    /// Makes the flags of the places in whose trace a device is, if there are fewer places than
    /// groups: one byte each. `Err(AllocError)`: an allocation failed.
    pub(crate) fn build(
        alloc: Global,
        placer: &Placer,
        scratch: &mut Scratch,
        out: &mut Out,
        device: u32,
    ) -> Result<TraceMarks, AllocError>
        requires fits { scratch.old ≡ scratch_of (tables_of placer.now.map) }
        ensures traced { IfOk result (λ t. AreTraced placer.now device t) }
        ensures fits { scratch.new ≡ scratch_of (tables_of placer.now.map) }
    {
        let parts = placer.pool_parts();
        let mut found = Vec::new(alloc);
        if parts.pgp_num < parts.pg_num {
            found.reserve(parts.pgp_num as usize)?;
            for place in 0..parts.pgp_num {
                found.push(is_traced(placer, scratch, out, device, place))?;
            }
        }
        Ok(TraceMarks { found })
    }

    /// Returns whether the device is in the trace of a group, if that is stored: it is the trace
    /// for the group's place.
    pub(crate) fn kept(&self, placer: &Placer, group: u32) -> Option<bool>
        ensures { (device : ℕ) → AreTraced placer.now device self.now → IfSome result (λ found. found ≡ has_number (trace_on placer.now group) device) }
    {
        if self.found.is_empty() {
            return None;
        }
        groups_have_the_seeds_of_their_places();
        let place = placer.pool().place_of(group) as usize;
        self.found.get(place).copied()
    }
}

//! Laws of the definitions: contracts of functions that do nothing.

ghost use Rattle.std.specs.Prelude.{◌≡◌, ◌≢◌, ◌↔◌, ◌<◌, ◌≤◌, ◌&&◌, ℕ, pos, List, [], All, AllPairs, map, not, true, Some, IfSome, count_by, sum_by};
ghost use Rattle.crush_map.specs.Faults.{has_number};
ghost use Rattle.crush_map.specs.Map.{Map};
ghost use Rattle.crush_map.specs.declared.draft.Rule.{Rule};
ghost use Rattle.crush_choose.specs.Firstn.{has};
ghost use Rattle.crush_choose.specs.Marks.{Slot};
ghost use Rattle.crush_choose.specs.Weights.{weight_at, weights_of};
ghost use Rattle.crush_pool.specs.States.{flags_of, reweights};
ghost use Rattle.crush_pool.specs.declared.exceptions.Pair.{Pair};
ghost use Rattle.crush_pool.specs.declared.pool.PoolParts.{PoolParts};
ghost use Rattle.crush_pool.specs.declared.states.DeviceState.{DeviceState};
ghost use Rattle.crush_report.specs.Moves.{gained, gained_in, same_slots, move_rows};
ghost use Rattle.crush_report.specs.Reports.{groups, raw_by, up_by, impact_by, moves};
ghost use Rattle.crush_pool.specs.Exceptions.{device_item};
ghost use Rattle.crush_report.specs.declared.rows.MoveRow.{MoveRow};

use crush_choose::laws::traces_ascend;
use crush_choose::stability::{
    a_changed_answer_has_a_lowered_device_in_its_trace, lowering_outside_the_trace_changes_nothing,
};

/// A group has a row in `moves` exactly where its up lists differ. From a map to itself no group
/// moves.
pub fn groups_move_where_their_lists_differ()
    ensures same { (first second : List Slot) → same_slots first second ≡ true ↔ first ≡ second }
    ensures rows { (old new : ℕ → List Slot) (p : PoolParts) (group : ℕ) → group < p.pg_num
        → has_number (map (λ row. row.group) (move_rows old new (groups p))) group ≡ not (same_slots (old group) (new group)) }
    ensures itself { (m : Map) (states : List DeviceState) (p : PoolParts) (pairs : List Pair) (rows : List MoveRow) → moves m m states p pairs ≡ Some rows → rows ≡ [] }
{}

/// `gained` counts each device once that is in the new list and not in the old one: it is a count
/// over any ascending list of ids that has the devices of the new list. What rows gain in all is
/// the sum of what each gains.
pub fn gained_counts_each_new_device_once()
    ensures once { (old new : List Slot) (ids : List ℕ) → AllPairs (λ a b. a < b) ids
        → All (λ slot. IfSome slot (λ item. (id : ℕ) × (item.0 ≡ pos id) × (has_number ids id ≡ true))) new
        → gained old new ≡ count_by (λ id. has new (device_item id) && not (has old (device_item id))) ids }
    ensures sum { (rows : List MoveRow) → gained_in rows ≡ sum_by (λ row. row.gained) rows }
{}

/// A group whose raw list changes where reweights of devices are lowered is in the impact list of
/// one of those devices, by the reweights before. So is a group whose up list changes, if no device
/// goes down or up: where no lowered device is in the trace of a group, and no pair of the group
/// leads to one, its up list stays too. The law says nothing of reweights that are raised. A group
/// of an impact list need not move.
pub fn groups_that_move_are_in_an_impact_list()
    ensures raw { (m : Map) (states lowered : List DeviceState) (p : PoolParts) (pairs : List Pair) (rule : Rule) (group : ℕ) → group < p.pg_num
        → ((device : ℕ) → weight_at (weights_of (reweights lowered)) device ≤ weight_at (weights_of (reweights states)) device)
        → raw_by m lowered p pairs rule group ≢ raw_by m states p pairs rule group
        → (device : ℕ) × (weight_at (weights_of (reweights lowered)) device < weight_at (weights_of (reweights states)) device) × (has_number (impact_by m states p pairs device rule) group ≡ true) }
    ensures up { (m : Map) (states lowered : List DeviceState) (p : PoolParts) (pairs : List Pair) (rule : Rule) (group : ℕ) → group < p.pg_num
        → flags_of lowered ≡ flags_of states
        → ((device : ℕ) → weight_at (weights_of (reweights lowered)) device ≤ weight_at (weights_of (reweights states)) device)
        → up_by m lowered p pairs rule group ≢ up_by m states p pairs rule group
        → (device : ℕ) × (weight_at (weights_of (reweights lowered)) device < weight_at (weights_of (reweights states)) device) × (has_number (impact_by m states p pairs device rule) group ≡ true) }
{
    a_changed_answer_has_a_lowered_device_in_its_trace();
    lowering_outside_the_trace_changes_nothing();
    traces_ascend();
}

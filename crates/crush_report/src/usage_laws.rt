//! Laws of the devices in answers and of the sums of usage: contracts of functions that do nothing.

ghost use Rattle.std.specs.Prelude.{◌≡◌, ℕ, List, Some, IfSome, All, true, length, map, filter, is_some, sum_by};
ghost use Rattle.crush_map.specs.Map.{Map, IsMap};
ghost use Rattle.crush_map.specs.Sound.{has_item};
ghost use Rattle.crush_map.specs.declared.draft.Rule.{Rule};
ghost use Rattle.crush_bucket.specs.Tables.{tables_of};
ghost use Rattle.crush_choose.specs.Rules.{rule_answer};
ghost use Rattle.crush_pool.specs.Placements.{primary_of, rule_numbered};
ghost use Rattle.crush_pool.specs.declared.exceptions.Pair.{Pair};
ghost use Rattle.crush_pool.specs.declared.pool.PoolParts.{PoolParts};
ghost use Rattle.crush_pool.specs.declared.states.DeviceState.{DeviceState};
ghost use Rattle.crush_report.specs.Reports.{groups, up_by, usage_by};
ghost use Rattle.crush_report.specs.Usage.{entry_count};

use crush_bucket::laws::buckets_of_a_map_pick_below;
use crush_map::{buckets_are_sound, rules_are_sound};

/// Each slot of the answer of a map's rule is none, or a device or bucket that the map declares.
pub fn answers_are_of_the_map()
    ensures { (m : Map) (rule : Rule) (id : ℕ) (w : List ℕ) (x size : ℕ) → IsMap m → rule_numbered m id ≡ Some rule
        → All (λ slot. IfSome slot (λ item. has_item m.devices m.buckets item.0 ≡ true)) (rule_answer (tables_of m) w rule.steps x size) }
{
    buckets_of_a_map_pick_below();
    buckets_are_sound();
    rules_are_sound();
}

/// In the usage of a pool each entry of an up list counts for one device, and so does each group
/// that has a primary: the entries of all rows add up to the number of entries that aren't none,
/// and the primaries to the number of groups that have a primary.
pub fn usage_counts_each_entry()
    ensures entries { (m : Map) (states : List DeviceState) (p : PoolParts) (pairs : List Pair) (rule : Rule) → IsMap m → rule_numbered m p.rule ≡ Some rule
        → sum_by (λ r. r.entries) (usage_by m states p pairs rule) ≡ entry_count (map (up_by m states p pairs rule) (groups p)) }
    ensures primaries { (m : Map) (states : List DeviceState) (p : PoolParts) (pairs : List Pair) (rule : Rule) → IsMap m → rule_numbered m p.rule ≡ Some rule
        → sum_by (λ r. r.primaries) (usage_by m states p pairs rule) ≡ length (filter (λ up. is_some (primary_of up)) (map (up_by m states p pairs rule) (groups p))) }
{
    answers_are_of_the_map();
}

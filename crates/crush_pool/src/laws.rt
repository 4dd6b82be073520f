//! Laws of the definitions: contracts of functions that do nothing.

ghost use Rattle.std.specs.Prelude.{◌≡◌, ◌<◌, ◌≤◌, ◌+◌, ◌%◌, ◌^◌, ◌⊎◌, ◌++◌, ℕ, List, [], Bool, None, Some, true, false, length, filter, find, is_some, unwrap_or, slice_index_or};
ghost use Rattle.std.specs.List.{All, list_any};
ghost use Rattle.crush_hash.specs.Hash.{hash2};
ghost use Rattle.crush_map.specs.Map.{Map};
ghost use Rattle.crush_map.specs.declared.draft.Rule.{Rule};
ghost use Rattle.crush_map.specs.declared.draft.Step.{Step};
ghost use Rattle.crush_bucket.specs.Tables.{TablesView, tables_of};
ghost use Rattle.crush_choose.specs.Marks.{Slot};
ghost use Rattle.crush_choose.specs.Weights.{weights_of};
ghost use Rattle.crush_choose.specs.Stability.{AreLoweredOutside};
ghost use Rattle.crush_choose.specs.Trace.{rule_trace};
ghost use Rattle.crush_pool.specs.declared.exceptions.Pair.{Pair};
ghost use Rattle.crush_pool.specs.declared.pool.PoolParts.{PoolParts};
ghost use Rattle.crush_pool.specs.declared.states.DeviceState.{DeviceState};
ghost use Rattle.crush_pool.specs.Exceptions.{HasNoDeviceTwice, is_of_group, pairs_of, targets_of};
ghost use Rattle.crush_pool.specs.Groups.{mask_of, stable_mod};
ghost use Rattle.crush_pool.specs.Placements.{is_up_slot, placed, placement, primary_of, rule_numbered, up_of};
ghost use Rattle.crush_pool.specs.Pools.{is_pool, seed_of};
ghost use Rattle.crush_pool.specs.States.{flags_of, reweights};

use crush_bucket::laws::height_is_least;
use crush_choose::laws::traces_ascend;
use crush_choose::stability::lowering_outside_the_trace_changes_nothing;

/// With the mask for b groups each number falls into one of them, and a number below b is its own
/// group. Where b is a power of two the group is the remainder.
pub fn numbers_fall_into_groups()
    ensures below { (x b : ℕ) → 0 < b → stable_mod x b (mask_of b) < b }
    ensures own { (group b : ℕ) → group < b → stable_mod group b (mask_of b) ≡ group }
    ensures remainder { (x k : ℕ) → stable_mod x (2 ^ k) (mask_of (2 ^ k)) ≡ x % 2 ^ k }
{
    height_is_least();
}

/// Where there are more groups than before, a number stays in its group or moves to a new one.
pub fn numbers_move_to_new_groups()
    ensures { (x fewer more : ℕ) → 0 < fewer → fewer ≤ more → (stable_mod x more (mask_of more) ≡ stable_mod x fewer (mask_of fewer)) ⊎ (fewer ≤ stable_mod x more (mask_of more)) }
{
    height_is_least();
}

/// A group has the seed of its place, which is a group below `pgp_num`. A group below `pgp_num` is
/// its own place: its seed is the hash of the group and the pool's id with `hashpspool`, and
/// otherwise their sum, which doesn't wrap.
pub fn groups_have_the_seeds_of_their_places()
    ensures place { (p : PoolParts) (group : ℕ) → 0 < p.pgp_num → seed_of p group ≡ seed_of p (stable_mod group p.pgp_num (mask_of p.pgp_num)) }
    ensures hash { (p : PoolParts) (group : ℕ) → p.hashpspool ≡ true → group < p.pgp_num → seed_of p group ≡ hash2 group p.id }
    ensures sum { (p : PoolParts) (group : ℕ) → is_pool p ≡ true → p.hashpspool ≡ false → group < p.pgp_num → seed_of p group ≡ group + p.id }
{
    numbers_fall_into_groups();
}

/// The up list of a replicated pool has only devices that are up. The up list of an erasure pool is
/// as long as what the rule answered. At each place it has the same device, if that is up, and
/// otherwise none.
pub fn up_lists_have_what_is_up()
    ensures replicated { (flags : List Bool) (raw : List Slot) → All (λ slot. is_up_slot flags slot ≡ true) (up_of false flags raw) }
    ensures length { (flags : List Bool) (raw : List Slot) → length (up_of true flags raw) ≡ length raw }
    ensures same { (flags : List Bool) (raw : List Slot) (place : ℕ) → is_up_slot flags (slice_index_or raw place None) ≡ true → slice_index_or (up_of true flags raw) place None ≡ slice_index_or raw place None }
    ensures none { (flags : List Bool) (raw : List Slot) (place : ℕ) → is_up_slot flags (slice_index_or raw place None) ≡ false → slice_index_or (up_of true flags raw) place None ≡ None }
{}

/// The up list of a replicated pool is that of an erasure pool without the places that have none.
/// The primary of both is the first device of the rule's answer that is up.
pub fn both_kinds_of_pools_have_the_same_devices()
    ensures devices { (flags : List Bool) (raw : List Slot) → up_of false flags raw ≡ filter is_some (up_of true flags raw) }
    ensures primary { (erasure : Bool) (flags : List Bool) (raw : List Slot) → primary_of (up_of erasure flags raw) ≡ unwrap_or (find (is_up_slot flags) raw) None }
{}

/// Exceptions change neither the seed of a group nor what the rule answers for it.
pub fn exceptions_leave_raw_as_it_is()
    ensures seed { (t : TablesView) (w : List ℕ) (flags : List Bool) (steps : List Step) (p : PoolParts) (first second : List Pair) (group : ℕ)
        → (placed t w flags steps p first group).seed ≡ (placed t w flags steps p second group).seed }
    ensures raw { (t : TablesView) (w : List ℕ) (flags : List Bool) (steps : List Step) (p : PoolParts) (first second : List Pair) (group : ℕ)
        → (placed t w flags steps p first group).raw ≡ (placed t w flags steps p second group).raw }
{}

/// Of all pairs of a pool only those of a group change its placement, and in their order. A group
/// without any is placed as in a pool without exceptions, whose up lists are made of what the rule
/// answers.
pub fn exceptions_change_their_group_alone()
    ensures same { (m : Map) (states : List DeviceState) (p : PoolParts) (first second : List Pair) (group : ℕ)
        → pairs_of first group ≡ pairs_of second group → placement m states p first group ≡ placement m states p second group }
    ensures none { (m : Map) (states : List DeviceState) (p : PoolParts) (pairs : List Pair) (group : ℕ)
        → list_any (is_of_group group) pairs ≡ false → placement m states p pairs group ≡ placement m states p [] group }
    ensures up { (t : TablesView) (w : List ℕ) (flags : List Bool) (steps : List Step) (p : PoolParts) (group : ℕ)
        → (placed t w flags steps p [] group).up ≡ up_of p.erasure flags (placed t w flags steps p [] group).raw }
{}

/// Where the rule answers no device twice, the up list has none twice either, whatever the
/// exceptions.
pub fn exceptions_put_no_device_twice()
    ensures { (t : TablesView) (w : List ℕ) (flags : List Bool) (steps : List Step) (p : PoolParts) (pairs : List Pair) (group : ℕ)
        → HasNoDeviceTwice (placed t w flags steps p pairs group).raw → HasNoDeviceTwice (placed t w flags steps p pairs group).up }
{}

/// Reweights that are lowered of devices outside a group's trace to which no pair of the group
/// leads change nothing of its placement, however many devices are lowered at once. The law says
/// nothing of devices that go down or up.
pub fn lowering_other_devices_changes_no_placement()
    ensures { (m : Map) (states lowered : List DeviceState) (p : PoolParts) (pairs : List Pair) (rule : Rule) (group : ℕ) → rule_numbered m p.rule ≡ Some rule
        → flags_of lowered ≡ flags_of states
        → AreLoweredOutside (rule_trace (tables_of m) (weights_of (reweights states)) rule.steps (seed_of p group) p.size ++ targets_of pairs group) (weights_of (reweights states)) (weights_of (reweights lowered))
        → placement m lowered p pairs group ≡ placement m states p pairs group }
{
    lowering_outside_the_trace_changes_nothing();
    traces_ascend();
}

//! Reports on a pool, by a map, the exceptions of the pool and states of devices.

ghost use Rattle.std.specs.Prelude.{◌≡◌, Some, IfOk, is_some, true};
ghost use Rattle.crush_choose.specs.Weights.{weights_of};
ghost use Rattle.crush_pool.specs.Exceptions.{are_pairs};
ghost use Rattle.crush_pool.specs.Placements.{rule_numbered};
ghost use Rattle.crush_pool.specs.States.{flags_of, reweights};
ghost use Rattle.crush_report.specs.Reports as spec;

use crate::moved_groups::moves_with;
use crate::rows::{MoveRow, UsageRow};
use crate::touched_groups::impact_with;
use crate::usage_counts::usage_with;
use crush_bucket::Tables;
use crush_choose::Weights;
use crush_map::{CrushMap, Sequence};
use crush_pool::{DeviceState, DeviceStates, Exceptions, Placer, Pool, reweights_of};
use std::alloc::{AllocError, Global};

/// Makes the table of the reweights of `states`. `Err(AllocError)`: an allocation failed.
fn weights_of(alloc: Global, states: &[DeviceState]) -> Result<Weights, AllocError>
    ensures { IfOk result (λ w. w ≡ weights_of (reweights states.now)) }
{
    Weights::of(alloc, &reweights_of(alloc, states)?)
}

/// Counts how much of a pool lies on each device of a map, in the order of the devices. The map has
/// the pool's rule, and each exception is of a group of the pool. `Err(AllocError)`: an allocation
/// failed.
pub fn usage(
    alloc: Global,
    map: &CrushMap,
    pool: &Pool,
    exceptions: &Exceptions,
    states: &[DeviceState],
) -> Result<Sequence<UsageRow>, AllocError>
    requires rule { is_some (rule_numbered map.now pool.now.rule) ≡ true }
    requires exceptions { are_pairs pool.now.pg_num exceptions.now ≡ true }
    ensures { IfOk result (λ rows. Some rows ≡ spec.usage map.now states.now pool.now exceptions.now) }
{
    let tables = Tables::build(alloc, map)?;
    let weights = weights_of(alloc, states)?;
    let flags = DeviceStates::build(alloc, states)?;
    match Placer::new(map, &tables, states, &weights, &flags, pool, exceptions) {
        Some(placer) => usage_with(alloc, &placer),
        None => unreachable!(),
    }
}

/// Finds the groups whose up lists differ between the map of a placer and another map, in order.
/// `Err(AllocError)`: an allocation failed.
fn moves_to(
    alloc: Global,
    old: &Placer,
    to: &CrushMap,
    states: &[DeviceState],
    weights: &Weights,
    flags: &DeviceStates,
    pool: &Pool,
    exceptions: &Exceptions,
) -> Result<Sequence<MoveRow>, AllocError>
    requires rule { is_some (rule_numbered to.now pool.now.rule) ≡ true }
    requires states { states.now ≡ old.now.states }
    requires pool { pool.now ≡ old.now.pool }
    requires exceptions { exceptions.now ≡ old.now.pairs }
    requires valid { are_pairs pool.now.pg_num exceptions.now ≡ true }
    requires weights { weights.now ≡ weights_of (reweights states.now) }
    requires flags { flags.now ≡ flags_of states.now }
    ensures { IfOk result (λ rows. Some rows ≡ spec.moves old.now.map to.now old.now.states old.now.pool old.now.pairs) }
{
    let tables = Tables::build(alloc, to)?;
    match Placer::new(to, &tables, states, weights, flags, pool, exceptions) {
        Some(new) => moves_with(alloc, old, &new),
        None => unreachable!(),
    }
}

/// Finds the groups of a pool whose up lists differ between two maps, in order. Both maps have the
/// pool's rule, and each exception is of a group of the pool. The exceptions are those of both
/// maps: on each, only one that leads to a device of it can take effect. `Err(AllocError)`: an
/// allocation failed.
pub fn moves(
    alloc: Global,
    from: &CrushMap,
    to: &CrushMap,
    pool: &Pool,
    exceptions: &Exceptions,
    states: &[DeviceState],
) -> Result<Sequence<MoveRow>, AllocError>
    requires first { is_some (rule_numbered from.now pool.now.rule) ≡ true }
    requires second { is_some (rule_numbered to.now pool.now.rule) ≡ true }
    requires exceptions { are_pairs pool.now.pg_num exceptions.now ≡ true }
    ensures { IfOk result (λ rows. Some rows ≡ spec.moves from.now to.now states.now pool.now exceptions.now) }
{
    let tables = Tables::build(alloc, from)?;
    let weights = weights_of(alloc, states)?;
    let flags = DeviceStates::build(alloc, states)?;
    match Placer::new(from, &tables, states, &weights, &flags, pool, exceptions) {
        Some(old) => moves_to(alloc, &old, to, states, &weights, &flags, pool, exceptions),
        None => unreachable!(),
    }
}

/// Finds the groups of a pool in whose trace a device is, and those of which a pair leads to it, in
/// order, each once. The map has the pool's rule, and each exception is of a group of the pool.
/// `Err(AllocError)`: an allocation failed.
///
/// A group whose raw or up list changes where reweights are lowered is in the list of one of the
/// devices of which they are lowered (`laws::groups_that_move_are_in_an_impact_list`).
pub fn impact(
    alloc: Global,
    map: &CrushMap,
    pool: &Pool,
    exceptions: &Exceptions,
    states: &[DeviceState],
    device: u32,
) -> Result<Sequence<u32>, AllocError>
    requires rule { is_some (rule_numbered map.now pool.now.rule) ≡ true }
    requires exceptions { are_pairs pool.now.pg_num exceptions.now ≡ true }
    ensures { IfOk result (λ groups. Some groups ≡ spec.impact map.now states.now pool.now exceptions.now device) }
{
    let tables = Tables::build(alloc, map)?;
    let weights = weights_of(alloc, states)?;
    let flags = DeviceStates::build(alloc, states)?;
    match Placer::new(map, &tables, states, &weights, &flags, pool, exceptions) {
        Some(placer) => impact_with(alloc, &placer, device),
        None => unreachable!(),
    }
}

//! Placements: the devices of a group.

ghost use Rattle.std.specs.Prelude.{◌≡◌, ◌<◌, ◌≤◌, List, Some, IfOk, IfErr, IfSome, OnOk, is_ok, nat_lt, length, option_map, true};
ghost use Rattle.crush_map.specs.Map.{IsMap, Map};
ghost use Rattle.crush_bucket.specs.Tables.{scratch_of, tables_of};
ghost use Rattle.crush_choose.specs.Rules.{CanRun, IsTrace, rule_answer};
ghost use Rattle.crush_choose.specs.Weights.{weights_of};
ghost use Rattle.crush_choose.specs.declared.limits.TheConstants.{SIZE_LIMIT};
ghost use Rattle.crush_pool.specs.Exceptions.{are_pairs, excepted};
ghost use Rattle.crush_pool.specs.States.{flags_of, reweights};
ghost use Rattle.crush_pool.specs.Placements as spec;
ghost use Rattle.crush_pool.specs.Pools.{seed_of};
ghost use Rattle.crush_pool.specs.declared.states.DeviceState.{DeviceState};

use crate::exceptions::{ExceptedSlots, Exceptions};
use crate::pool::{Pool, PoolFault};
use crate::states::DeviceStates;
use crush_bucket::{Scratch, Tables};
use crush_choose::laws::rules_of_a_map_can_run;
use crush_choose::{Out, Slot, Weights, run_rule};
use crush_map::{CrushMap, Rule, Sequence};
use std::alloc::{AllocError, Global};

/// The placement of a group.
#[derive(Drop)]
pub struct Placement {
    /// The input x with which the rule ran.
    pub seed: u32,
    /// What the rule answered.
    pub raw: Sequence<Slot>,
    /// Of `raw`, with the exceptions of the group, the devices that are up, in order. In an erasure
    /// pool each other entry is `None` here.
    pub up: Sequence<Slot>,
    /// The first device of `up`; `None` where there is none.
    pub primary: Slot,
}

/// Finds the rule of a map with an id. `None` where the map has no such rule.
pub fn rule_with_id(map: &CrushMap, id: u32) -> Option<&Rule>
    ensures value { option_map (λ r. r.now) result ≡ spec.rule_numbered map.now id }
    ensures runs { IfSome result (λ r. CanRun (tables_of map.now) r.now) }
    ensures valid { IsMap map.now }
{
    rules_of_a_map_can_run();
    map.rules().iter().find(|rule| rule.id == id)
}

/// Returns whether a slot has a device that is up.
pub fn is_up_slot(states: &DeviceStates, slot: Slot) -> bool
    ensures { result ≡ spec.is_up_slot states.now slot }
{
    match slot {
        Some(item) => item.0 >= 0 && states.is_up(item.0 as u32),
        None => false,
    }
}

/// Sets `up` to the up list of a replicated or an erasure pool, by what the rule answered, with its
/// exceptions. `Err(AllocError)`: an allocation failed.
fn set_up_of(
    up: &mut Vec<Slot>,
    erasure: bool,
    states: &DeviceStates,
    raw: &[Slot],
) -> Result<(), AllocError>
    ensures { OnOk result (up.new.items ≡ spec.up_of erasure states.now raw.now) }
{
    up.clear();
    for slot in raw {
        if is_up_slot(states, *slot) {
            up.push(*slot)?;
        } else if erasure {
            up.push(None)?;
        }
    }
    Ok(())
}

/// Finds the first device of an up list. `None` where there is none.
pub fn primary_of(up: &[Slot]) -> Slot
    ensures { result ≡ spec.primary_of up.now }
{
    for slot in up {
        if slot.is_some() {
            return *slot;
        }
    }
    None
}

/// Copies slots. `Err(AllocError)`: an allocation failed.
fn copied(alloc: Global, slots: &[Slot]) -> Result<Vec<Slot>, AllocError>
    ensures { IfOk result (λ copy. copy.items ≡ slots.now) }
{
    let mut copy = Vec::with_capacity(alloc, slots.len())?;
    for slot in slots {
        copy.push(*slot)?;
    }
    Ok(copy)
}

/// What places the groups of a pool: the tables, a rule, the reweights, which devices are up, and
/// the exceptions of the pool.
#[derive(Clone, Copy)]
pub(crate) struct Placing<'a> {
    pub tables: &'a Tables,
    pub rule: &'a Rule,
    pub weights: &'a Weights,
    pub flags: &'a DeviceStates,
    pub pool: &'a Pool,
    pub exceptions: &'a Exceptions,
}

impl<'a> Placing<'a> {
    /// Runs the rule for a group: sets `out` to its answer and to the trace of the run.
    pub(crate) fn run(&self, scratch: &mut Scratch, out: &mut Out, group: u32)
        requires rule { CanRun self.now.tables.now self.now.rule.now }
        requires fits { scratch.old ≡ scratch_of self.now.tables.now }
        ensures items { let s = self.now in out.new.items ≡ rule_answer s.tables.now s.weights.now s.rule.now.steps (seed_of s.pool.now group) s.pool.now.size }
        ensures trace { let s = self.now in IsTrace s.tables.now s.weights.now s.rule.now.steps (seed_of s.pool.now group) s.pool.now.size out.new.trace }
        ensures same { scratch.new ≡ scratch.old }
    {
        let seed = self.pool.seed_of(group);
        let size = self.pool.parts().size;
        run_rule(
            self.tables,
            scratch,
            self.rule,
            seed,
            size,
            self.weights,
            out,
        );
    }

    /// Sets `up` to the up list of a group, by what the rule answered for it. Only where the group
    /// has exceptions they are applied, to a copy of the answer. `Err(AllocError)`: an allocation
    /// failed.
    #[tactic(auto, using(crate::proofs::Pairs::nothing_excepted))]
    pub(crate) fn set_up(
        &self,
        up: &mut Vec<Slot>,
        group: u32,
        raw: &[Slot],
    ) -> Result<(), AllocError>
        requires { length raw.now ≤ SIZE_LIMIT }
        ensures { let s = self.now in OnOk result (up.new.items ≡ spec.up_of s.pool.now.erasure s.flags.now (excepted s.tables.now s.weights.now s.exceptions.now group raw.now)) }
    {
        let erasure = self.pool.parts().erasure;
        if self.exceptions.concern(group) {
            let changed = ExceptedSlots::new(
                self.tables,
                self.weights,
                self.exceptions,
                group,
                raw,
            );
            set_up_of(up, erasure, self.flags, changed.items())
        } else {
            set_up_of(up, erasure, self.flags, raw)
        }
    }

    /// Makes the placement of a group by what the rule answered for it.
    pub(crate) fn placement_by(
        &self,
        alloc: Global,
        group: u32,
        raw: &[Slot],
    ) -> Result<Placement, AllocError>
        requires { length raw.now ≤ SIZE_LIMIT }
        ensures seed { IfOk result (λ p. p.seed ≡ seed_of self.now.pool.now group) }
        ensures raw { IfOk result (λ p. p.raw ≡ raw.now) }
        ensures up { let s = self.now in IfOk result (λ p. p.up ≡ spec.up_of s.pool.now.erasure s.flags.now (excepted s.tables.now s.weights.now s.exceptions.now group raw.now)) }
        ensures primary { IfOk result (λ p. p.primary ≡ spec.primary_of p.up) }
    {
        let copy = copied(alloc, raw)?;
        let mut up = Vec::with_capacity(alloc, raw.len())?;
        self.set_up(&mut up, group, raw)?;
        let primary = primary_of(&up);
        Ok(Placement {
            seed: self.pool.seed_of(group),
            raw: Sequence::new(copy),
            up: Sequence::new(up),
            primary,
        })
    }
}

/// Places a group of a pool with exceptions, or answers `P2` where the pool has no such group.
/// `Err(AllocError)`: an allocation failed; nothing is changed.
#[tactic(auto, unfolding(crate::specs::Placements::placed))]
pub fn place(
    alloc: Global,
    tables: &Tables,
    scratch: &mut Scratch,
    pool: &Pool,
    exceptions: &Exceptions,
    rule: &Rule,
    weights: &Weights,
    states: &DeviceStates,
    group: u32,
) -> Result<Result<Placement, PoolFault>, AllocError>
    requires exceptions { are_pairs pool.now.pg_num exceptions.now ≡ true }
    requires rule { CanRun tables.now rule.now }
    requires fits { scratch.old ≡ scratch_of tables.now }
    ensures there { IfOk result (λ answer. is_ok answer ≡ nat_lt group pool.now.pg_num) }
    ensures placed { IfOk result (λ answer. IfOk answer (λ p. p ≡ spec.placed tables.now weights.now states.now rule.now.steps pool.now exceptions.now group)) }
    ensures fault { IfOk result (λ answer. IfErr answer (λ fault. fault ≡ PoolFault.P2)) }
    ensures fits { scratch.new ≡ scratch_of tables.now }
    ensures map { (m : Map) (given : List DeviceState) → tables.now ≡ tables_of m → weights.now ≡ weights_of (reweights given) → states.now ≡ flags_of given → spec.rule_numbered m pool.now.rule ≡ Some rule.now → IfOk result (λ answer. IfOk answer (λ p. Some p ≡ spec.placement m given pool.now exceptions.now group)) }
{
    if group >= pool.parts().pg_num {
        return Ok(Err(PoolFault::P2));
    }
    let placing = Placing {
        tables,
        rule,
        weights,
        flags: states,
        pool,
        exceptions,
    };
    let mut out = Out::build(alloc)?;
    placing.run(scratch, &mut out, group);
    let placement = placing.placement_by(alloc, group, out.items())?;
    Ok(Ok(placement))
}

//! What places the groups of a pool: the pool on a map, with its exceptions and with states of
//! devices.

ghost use Rattle.std.specs.Prelude.{◌≡◌, option_map};
ghost use Rattle.crush_bucket.specs.Tables.{tables_of};
ghost use Rattle.crush_choose.specs.Weights.{weights_of};
ghost use Rattle.crush_pool.specs.Placements.{rule_numbered};
ghost use Rattle.crush_pool.specs.States.{flags_of, reweights};

use crate::exceptions::Exceptions;
use crate::placing::{Placement, Placing, rule_with_id};
use crate::pool::{Pool, PoolParts};
use crate::states::{DeviceState, DeviceStates};
use crush_bucket::{LANES, Scratch, Tables};
use crush_choose::{Out, Slot, Weights, can_look_ahead, look_ahead, touches};
use crush_map::{CrushMap, Rule};
use std::alloc::{AllocError, Global};
use std::marker::Model;

/// A pool on a map that has the pool's rule, with the pool's exceptions and with states of devices:
/// all that is needed to place the pool's groups. Contracts see the map, the states, the pool and
/// its pairs.
#[derive(Drop)]
pub struct Placer<'a> {
    map: &'a CrushMap,
    states: &'a [DeviceState],
    placing: Placing<'a>,
}

impl<'a> Model for Placer<'a> {
    ghost use Rattle.std.specs.Prelude.{◌≡◌, Some, true};
    ghost use Rattle.crush_map.specs.Map.{IsMap};
    ghost use Rattle.crush_bucket.specs.Tables.{tables_of};
    ghost use Rattle.crush_choose.specs.Rules.{CanRun};
    ghost use Rattle.crush_choose.specs.Weights.{weights_of};
    ghost use Rattle.crush_pool.specs.Exceptions.{are_pairs};
    ghost use Rattle.crush_pool.specs.Placements.{rule_numbered};
    ghost use Rattle.crush_pool.specs.Placers.{PoolOnMap};
    ghost use Rattle.crush_pool.specs.States.{flags_of, reweights};

    ghost Value = { PoolOnMap };

    ghost view = { λ a. record { map = a.map.now; states = a.states.now; pool = a.placing.pool.now; pairs = a.placing.exceptions.now } };

    ghost invariant = { λ a. record {
      map : IsMap a.map.now;
      tables : a.placing.tables.now ≡ tables_of a.map.now;
      weights : a.placing.weights.now ≡ weights_of (reweights a.states.now);
      flags : a.placing.flags.now ≡ flags_of a.states.now;
      rule : rule_numbered a.map.now a.placing.pool.now.rule ≡ Some a.placing.rule.now;
      runs : CanRun a.placing.tables.now a.placing.rule.now;
      pairs : are_pairs a.placing.pool.now.pg_num a.placing.exceptions.now ≡ true;
    } };
}

impl<'a> Placer<'a> {
    ghost use Rattle.std.specs.Prelude.{◌≡◌, ◌<◌, ◌≤◌, ℕ, List, Some, IfOk, OnOk, is_some, true, length, option_map};
    ghost use Rattle.crush_map.specs.Faults.{has_number};
    ghost use Rattle.crush_map.specs.Map.{IsMap};
    ghost use Rattle.crush_bucket.specs.Tables.{scratch_of, tables_of};
    ghost use Rattle.crush_choose.specs.Rules.{IsTrace, rule_answer};
    ghost use Rattle.crush_choose.specs.Weights.{weights_of};
    ghost use Rattle.crush_choose.specs.declared.limits.TheConstants.{SIZE_LIMIT};
    ghost use Rattle.crush_pool.specs.Exceptions.{are_pairs, excepted};
    ghost use Rattle.crush_pool.specs.Placements.{placement, rule_numbered, up_of};
    ghost use Rattle.crush_pool.specs.Placers.{steps_of};
    ghost use Rattle.crush_pool.specs.Pools.{is_pool, seed_of};
    ghost use Rattle.crush_pool.specs.States.{flags_of, reweights};

    /// Makes the placer of a pool on a map, with exceptions and states of devices. `None` exactly
    /// where the map lacks the pool's rule.
    ///
    /// The tables are those of the map, the weights are the reweights of the states, the flags say
    /// which devices are up by the states, and each exception is of a group of the pool.
    pub fn new(
        map: &'a CrushMap,
        tables: &'a Tables,
        states: &'a [DeviceState],
        weights: &'a Weights,
        flags: &'a DeviceStates,
        pool: &'a Pool,
        exceptions: &'a Exceptions,
    ) -> Option<Placer<'a>>
        requires tables { tables.now ≡ tables_of map.now }
        requires weights { weights.now ≡ weights_of (reweights states.now) }
        requires flags { flags.now ≡ flags_of states.now }
        requires exceptions { are_pairs pool.now.pg_num exceptions.now ≡ true }
        ensures value { result ≡ option_map (λ rule. record { map = map.now; states = states.now; pool = pool.now; pairs = exceptions.now }) (rule_numbered map.now pool.now.rule) }
        ensures map { IsMap map.now }
    {
        let rule = rule_with_id(map, pool.parts().rule)?;
        let placing = Placing {
            tables,
            rule,
            weights,
            flags,
            pool,
            exceptions,
        };
        Some(Placer {
            map,
            states,
            placing,
        })
    }

    /// Returns the map, which has the pool's rule.
    pub fn map(&self) -> &'a CrushMap
        ensures same { result.now ≡ self.now.map }
        ensures valid { IsMap self.now.map }
        ensures rule { is_some (rule_numbered self.now.map self.now.pool.rule) ≡ true }
    {
        self.map
    }

    /// Returns the tables of the map, which has the pool's rule.
    pub fn tables(&self) -> &'a Tables
        ensures same { result.now ≡ tables_of self.now.map }
        ensures rule { is_some (rule_numbered self.now.map self.now.pool.rule) ≡ true }
    {
        self.placing.tables
    }

    /// Returns the pool.
    pub fn pool(&self) -> &'a Pool
        ensures { result.now ≡ self.now.pool }
    {
        self.placing.pool
    }

    /// Returns the pool's settings, which are in range.
    pub fn pool_parts(&self) -> &'a PoolParts
        ensures same { result.now ≡ self.now.pool }
        ensures valid { is_pool self.now.pool ≡ true }
        ensures map { IsMap self.now.map }
    {
        self.placing.pool.parts()
    }

    /// Returns the exceptions of the pool.
    pub fn exceptions(&self) -> &'a Exceptions
        ensures same { result.now ≡ self.now.pairs }
        ensures valid { are_pairs self.now.pool.pg_num self.now.pairs ≡ true }
    {
        self.placing.exceptions
    }

    /// Returns the flags of the states: which devices are up.
    pub fn flags(&self) -> &'a DeviceStates
        ensures { result.now ≡ flags_of self.now.states }
    {
        self.placing.flags
    }

    /// Runs the pool's rule for a group: sets `out` to its answer and to the trace of the run.
    /// Allocates nothing.
    pub fn run(&self, scratch: &mut Scratch, out: &mut Out, group: u32)
        requires fits { scratch.old ≡ scratch_of (tables_of self.now.map) }
        ensures items { out.new.items ≡ rule_answer (tables_of self.now.map) (weights_of (reweights self.now.states)) (steps_of self.now) (seed_of self.now.pool group) self.now.pool.size }
        ensures trace { IsTrace (tables_of self.now.map) (weights_of (reweights self.now.states)) (steps_of self.now) (seed_of self.now.pool group) self.now.pool.size out.new.trace }
        ensures fits { scratch.new ≡ scratch_of (tables_of self.now.map) }
    {
        self.placing.run(scratch, out, group);
    }

    /// Picks ahead, at each group that is a multiple of eight, what the pool's rule asks for first
    /// for the eight groups from there on, side by side. What is answered later is the same with
    /// and without; where the groups come in order it takes less time.
    pub fn look_ahead(&self, scratch: &mut Scratch, group: u32)
        requires fits { scratch.old ≡ scratch_of (tables_of self.now.map) }
        ensures fits { scratch.new ≡ scratch_of (tables_of self.now.map) }
    {
        if group % LANES as u32 != 0 || !can_look_ahead(self.placing.tables, self.placing.rule) {
            return;
        }
        let mut xs = [0; LANES];
        for lane in 0..LANES {
            xs[lane] = self.placing.pool.seed_of(group.wrapping_add(lane as u32));
        }
        let size = self.placing.pool.parts().size;
        look_ahead(self.placing.tables, scratch, self.placing.rule, xs, size);
    }

    /// Runs the pool's rule for a group, as one of many in order, as `run` does.
    pub fn run_next(&self, scratch: &mut Scratch, out: &mut Out, group: u32)
        requires fits { scratch.old ≡ scratch_of (tables_of self.now.map) }
        ensures items { out.new.items ≡ rule_answer (tables_of self.now.map) (weights_of (reweights self.now.states)) (steps_of self.now) (seed_of self.now.pool group) self.now.pool.size }
        ensures trace { IsTrace (tables_of self.now.map) (weights_of (reweights self.now.states)) (steps_of self.now) (seed_of self.now.pool group) self.now.pool.size out.new.trace }
        ensures fits { scratch.new ≡ scratch_of (tables_of self.now.map) }
    {
        self.look_ahead(scratch, group);
        self.run(scratch, out, group);
    }

    /// Returns whether a device is in the trace of a run of the pool's rule for a group. Sets `out`
    /// to the rule's answer. Allocates nothing.
    pub fn touches(&self, scratch: &mut Scratch, out: &mut Out, group: u32, device: u32) -> bool
        requires fits { scratch.old ≡ scratch_of (tables_of self.now.map) }
        ensures touched { (trace : List ℕ) → IsTrace (tables_of self.now.map) (weights_of (reweights self.now.states)) (steps_of self.now) (seed_of self.now.pool group) self.now.pool.size trace → result ≡ has_number trace device }
        ensures items { out.new.items ≡ rule_answer (tables_of self.now.map) (weights_of (reweights self.now.states)) (steps_of self.now) (seed_of self.now.pool group) self.now.pool.size }
        ensures fits { scratch.new ≡ scratch_of (tables_of self.now.map) }
    {
        let seed = self.placing.pool.seed_of(group);
        let size = self.placing.pool.parts().size;
        touches(
            self.placing.tables,
            scratch,
            self.placing.rule,
            seed,
            size,
            self.placing.weights,
            out,
            device,
        )
    }

    /// Sets `up` to the up list of a group for which the pool's rule gave the answer `raw`, which
    /// isn't longer than `SIZE_LIMIT`. `Err(AllocError)`: an allocation failed.
    pub fn set_up(&self, up: &mut Vec<Slot>, group: u32, raw: &[Slot]) -> Result<(), AllocError>
        requires { length raw.now ≤ SIZE_LIMIT }
        ensures { OnOk result (up.new.items ≡ up_of self.now.pool.erasure (flags_of self.now.states) (excepted (tables_of self.now.map) (weights_of (reweights self.now.states)) self.now.pairs group raw.now)) }
    {
        self.placing.set_up(up, group, raw)
    }

    /// Places a group of the pool. Afterwards `out` has the rule's answer and the trace of its run.
    /// `Err(AllocError)`: an allocation failed; `out` must not be used any more.
    pub fn place_with(
        &self,
        alloc: Global,
        scratch: &mut Scratch,
        out: &mut Out,
        group: u32,
    ) -> Result<Placement, AllocError>
        requires there { group < self.now.pool.pg_num }
        requires fits { scratch.old ≡ scratch_of (tables_of self.now.map) }
        ensures placed { IfOk result (λ p. placement self.now.map self.now.states self.now.pool self.now.pairs group ≡ Some p) }
        ensures items { IfOk result (λ p. out.new.items ≡ p.raw) }
        ensures trace { IfOk result (λ p. IsTrace (tables_of self.now.map) (weights_of (reweights self.now.states)) (steps_of self.now) p.seed self.now.pool.size out.new.trace) }
        ensures fits { scratch.new ≡ scratch_of (tables_of self.now.map) }
    {
        self.run(scratch, out, group);
        let placement = self.placing.placement_by(alloc, group, out.items())?;
        Ok(placement)
    }
}

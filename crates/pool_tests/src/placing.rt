//! Pools on maps, and placements of their groups.

ghost use Rattle.std.specs.Prelude.{◌≡◌, ◌<◌, IfOk, is_ok, nat_lt, true};
ghost use Rattle.crush_bucket.specs.Tables.{scratch_of, tables_of};
ghost use Rattle.crush_pool.specs.Exceptions.{are_pairs};

use crate::maps::MapTables;
use crate::pools::{Short, pool};
use crush_bucket::Scratch;
use crush_choose::{Out, Weights};
use crush_pool::{
    DeviceState, DeviceStates, Exceptions, Pair, Placement, Placer, Pool, PoolFault, place,
    reweights_of, rule_with_id,
};
use std::alloc::Global;
use std::marker::Model;
use std::test::Fail;

/// Makes `pairs` the exceptions of a pool. `Err`: an allocation failed, or they can't be exceptions
/// of the pool.
pub fn exceptions_of(alloc: Global, pool: &Pool, pairs: &[Pair]) -> Result<Exceptions, Fail>
    ensures { IfOk result (λ exceptions. are_pairs pool.now.pg_num exceptions ≡ true) }
{
    let mut list = Vec::new(alloc);
    list.extend_from_slice(pairs)?;
    match Exceptions::new(alloc, pool, list)? {
        Ok(exceptions) => Ok(exceptions),
        Err(_) => Err(Fail::new("the pairs can't be exceptions of the pool")),
    }
}

/// A pool with exceptions, and states of devices. Contracts see the pool.
#[derive(Drop)]
pub struct PoolCase {
    pool: Pool,
    exceptions: Exceptions,
    states: &'static [DeviceState],
    weights: Weights,
    flags: DeviceStates,
}

impl Model for PoolCase {
    ghost use Rattle.std.specs.Prelude.{◌≡◌, true};
    ghost use Rattle.crush_choose.specs.Weights.{weights_of};
    ghost use Rattle.crush_pool.specs.Exceptions.{are_pairs};
    ghost use Rattle.crush_pool.specs.States.{flags_of, reweights};
    ghost use Rattle.crush_pool.specs.declared.pool.PoolParts.{PoolParts};

    ghost Value = { PoolParts };

    ghost view = { λ a. a.pool };

    ghost invariant = { λ a. record {
      pairs : are_pairs a.pool.pg_num a.exceptions ≡ true;
      weights : a.weights ≡ weights_of (reweights a.states.now);
      flags : a.flags ≡ flags_of a.states.now;
    } };
}

impl PoolCase {
    /// Makes a pool of parts with exceptions, and states. `Err`: an allocation failed, or there is
    /// no such pool.
    pub fn build(
        alloc: Global,
        short: Short,
        pairs: &[Pair],
        states: &'static [DeviceState],
    ) -> Result<PoolCase, Fail> {
        let weights = Weights::of(alloc, &reweights_of(alloc, states)?)?;
        let flags = DeviceStates::build(alloc, states)?;
        let pool = pool(alloc, short)?;
        let exceptions = exceptions_of(alloc, &pool, pairs)?;
        Ok(PoolCase {
            pool,
            exceptions,
            states,
            weights,
            flags,
        })
    }

    /// Makes what places the groups of the pool on a map. `None` where the map lacks the pool's
    /// rule.
    pub fn placer<'a>(&'a self, map: &'a MapTables) -> Option<Placer<'a>> {
        Placer::new(
            map.map(),
            map.tables(),
            self.states,
            &self.weights,
            &self.flags,
            &self.pool,
            &self.exceptions,
        )
    }

    /// Returns the states of devices.
    pub fn states(&self) -> &'static [DeviceState] {
        self.states
    }

    /// Returns the reweights of devices by the states.
    pub fn weights(&self) -> &Weights {
        &self.weights
    }
}

/// A group's placement, and what a run of the pool's rule for it leaves.
#[derive(Drop)]
pub struct Placed {
    /// The placement.
    pub placement: Placement,
    /// The answer of the rule, and the trace of the run.
    pub out: Out,
}

/// Places a group of a placer's pool, by what the placer is made of and `weights`. `P2` where the
/// pool has no such group. `Err`: an allocation failed, or the map lacks the rule.
pub fn placement_by(
    alloc: Global,
    placer: &Placer,
    weights: &Weights,
    scratch: &mut Scratch,
    group: u32,
) -> Result<Result<Placement, PoolFault>, Fail>
    requires fits { scratch.old ≡ scratch_of (tables_of placer.now.map) }
    ensures there { IfOk result (λ answer. is_ok answer ≡ nat_lt group placer.now.pool.pg_num) }
    ensures fits { scratch.new ≡ scratch_of (tables_of placer.now.map) }
{
    let pool = placer.pool();
    let Some(rule) = rule_with_id(placer.map(), pool.parts().rule) else {
        return Err(Fail::new("the map lacks the rule of the pool"));
    };
    let answer = place(
        alloc,
        placer.tables(),
        scratch,
        pool,
        placer.exceptions(),
        rule,
        weights,
        placer.flags(),
        group,
    )?;
    Ok(answer)
}

/// Returns whether two placements are the same.
fn are_same(one: &Placement, other: &Placement) -> bool {
    one.seed == other.seed
        && one.raw.as_slice() == other.raw.as_slice()
        && one.up.as_slice() == other.up.as_slice()
        && one.primary == other.primary
}

/// Places a group by the placer, and returns what the run leaves. `Err`: an allocation failed, or
/// the placer doesn't place the group as `placed`.
fn left(
    alloc: Global,
    placer: &Placer,
    scratch: &mut Scratch,
    group: u32,
    placed: &Placement,
) -> Result<Out, Fail>
    requires there { group < placer.now.pool.pg_num }
    requires fits { scratch.old ≡ scratch_of (tables_of placer.now.map) }
{
    let mut out = Out::build(alloc)?;
    let left = placer.place_with(alloc, scratch, &mut out, group)?;
    if !are_same(&left, placed) {
        return Err(Fail::new("the placer places the group otherwise"));
    }
    Ok(out)
}

/// Places a group of a placer's pool, by what the placer is made of and `weights`. Returns the
/// placement, and what the run leaves where the placer places it. `Err`: an allocation failed, the
/// pool has no such group, or the placer places it otherwise.
pub fn place_group(
    alloc: Global,
    placer: &Placer,
    weights: &Weights,
    group: u32,
) -> Result<Placed, Fail> {
    let mut scratch = Scratch::build(alloc, placer.tables())?;
    match placement_by(alloc, placer, weights, &mut scratch, group)? {
        Ok(placement) => {
            let out = left(alloc, placer, &mut scratch, group, &placement)?;
            Ok(Placed { placement, out })
        }
        Err(_) => Err(Fail::new("the pool has no such group")),
    }
}

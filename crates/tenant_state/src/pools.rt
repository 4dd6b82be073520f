//! The pools of a tenant.

ghost use Rattle.std.specs.Prelude.{◌≡◌, ◌==◌, OnOk, map, nat_le, position};
ghost use Rattle.std.specs.List.{position_or_len};
ghost use Rattle.tenant_state.specs.Ordered.{is_ascending, is_before_first, with_element};
ghost use Rattle.tenant_state.specs.State.{is_lower_pool};

use crate::pool::TenantPool;
use crate::size::size_of_pools;
use crush_pool::{Pool, SharedExceptions};
use std::alloc::{AllocError, Global};
use std::marker::Model;
use std::rc::Rc;

/// Pools, which are shared. Contracts see their settings and pairs in the order in which they are
/// stored, that of their ids.
#[derive(Drop)]
pub struct Pools {
    pools: Vec<Rc<TenantPool>>,
    /// How many bytes the pools take.
    size: u64,
}

impl Model for Pools {
    ghost use Rattle.std.specs.Prelude.{◌≡◌, ◌-◌, ◌^◌, List, map, min};
    ghost use Rattle.std.specs.List.{sum_by};
    ghost use Rattle.tenant_state.specs.Size.{pool_size};
    ghost use Rattle.tenant_state.specs.State.{TenantPool};

    ghost Value = { List TenantPool };

    ghost view = { λ a. map (λ p. p.value) a.pools.items };

    ghost invariant = { λ a. a.size ≡ min (sum_by pool_size (map (λ p. p.value) a.pools.items)) (2 ^ 64 - 1) };
}

impl Pools {
    ghost use Rattle.std.specs.Prelude.{◌≡◌, ◌-◌, ◌^◌, ◌==◌, [], IfOk, length, find, map, min, option_map, true};
    ghost use Rattle.std.specs.List.{sum_by};
    ghost use Rattle.tenant_state.specs.Ordered.{if_ascending, with_element, without};
    ghost use Rattle.tenant_state.specs.Size.{pool_size};
    ghost use Rattle.tenant_state.specs.State.{can_have, is_lower_pool, with_pairs};

    /// Makes a list without pools. Allocates nothing.
    pub fn new(alloc: Global) -> Self
        ensures { result ≡ [] }
    {
        Pools::of(Vec::new(alloc))
    }

    /// Makes the pools of a list, and counts the bytes that they take.
    fn of(pools: Vec<Rc<TenantPool>>) -> Self
        ensures { result ≡ map (λ p. p.value) pools.items }
    {
        let size = size_of_pools(&pools);
        Pools { pools, size }
    }

    /// Makes the pools of a list that is in the order of their ids. `None`, exactly where an id
    /// comes twice or out of order. Takes time linear in the length of the list. Allocates nothing.
    pub fn from_list(pools: Vec<Rc<TenantPool>>) -> Option<Self>
        ensures { result ≡ if_ascending is_lower_pool (map (λ p. p.value) pools.items) }
    {
        if are_ascending(&pools) {
            Some(Pools::of(pools))
        } else {
            None
        }
    }

    /// Returns the number of pools.
    pub fn len(&self) -> usize
        ensures { result ≡ length self.now }
    {
        self.pools.len()
    }

    /// Returns the pools, in the order of their ids.
    pub fn as_slice(&self) -> &[Rc<TenantPool>]
        ensures { map (λ p. p.value) result.now ≡ self.now }
    {
        self.pools.as_slice()
    }

    /// Returns the bytes of memory that the pools take at most, by an estimate.
    pub(crate) fn size(&self) -> u64
        ensures { result ≡ min (sum_by pool_size self.now) (2 ^ 64 - 1) }
    {
        self.size
    }

    /// Returns the shared pool that has `id`, or `None`.
    pub fn get_shared(&self, id: u64) -> Option<&Rc<TenantPool>>
        ensures { option_map (λ p. p.now.value) result ≡ find (λ p. p.parts.id == id) self.now }
    {
        match place_with(&self.pools, id) {
            Some(place) => Some(&self.pools[place]),
            None => None,
        }
    }

    /// Returns the pool that has `id`, or `None`.
    pub fn get(&self, id: u64) -> Option<&TenantPool>
        ensures { option_map (λ p. p.now) result ≡ find (λ p. p.parts.id == id) self.now }
    {
        match self.get_shared(id) {
            Some(pool) => Some(pool.as_ref()),
            None => None,
        }
    }

    /// Makes a copy that shares the pools. `Err(AllocError)`: an allocation failed; nothing is
    /// changed.
    pub fn copy(&self) -> Result<Self, AllocError>
        ensures { IfOk result (λ again. again ≡ self.now) }
    {
        Ok(Pools {
            pools: self.pools.clone()?,
            size: self.size,
        })
    }

    /// Makes a copy with one more pool, which has no exceptions, in place of one with the same id.
    /// `Err(AllocError)`: an allocation failed; nothing is changed.
    pub fn with(&self, alloc: Global, pool: &Rc<Pool>) -> Result<Self, AllocError>
        ensures { IfOk result (λ pools. pools ≡ with_element (λ p. p.parts.id) (record { parts = pool.now.value; pairs = [] }) self.now) }
    {
        let mut pools = self.pools.clone()?;
        let new = TenantPool::new(alloc, pool.clone()?)?;
        insert(&mut pools, Rc::new(alloc, new)?)?;
        Ok(Pools::of(pools))
    }

    /// Makes a copy in which the pool that has `id` has `exceptions`, each of which is of a group
    /// of that pool. `Err(AllocError)`: an allocation failed; nothing is changed.
    pub fn with_exceptions(
        &self,
        alloc: Global,
        id: u32,
        exceptions: &SharedExceptions,
    ) -> Result<Self, AllocError>
        requires { can_have exceptions.now (find (λ p. p.parts.id == id) self.now) ≡ true }
        ensures { IfOk result (λ pools. pools ≡ with_pairs id exceptions.now self.now) }
    {
        let mut pools = self.pools.clone()?;
        if let Some(place) = place_with(&pools, u64::from(id)) {
            let pool = pools[place].with_exceptions(exceptions)?;
            pools[place] = Rc::new(alloc, pool)?;
        }
        Ok(Pools::of(pools))
    }

    /// Makes a copy without the pool that has `id`. `Err(AllocError)`: an allocation failed;
    /// nothing is changed.
    pub fn without(&self, id: u32) -> Result<Self, AllocError>
        ensures { IfOk result (λ pools. pools ≡ without (λ p. p.parts.id) id self.now) }
    {
        let mut pools = self.pools.clone()?;
        if let Some(place) = place_with(&pools, u64::from(id)) {
            let _removed = pools.remove(place);
        }
        Ok(Pools::of(pools))
    }
}

/// Returns the place of the first pool that has `id`.
fn place_with(pools: &[Rc<TenantPool>], id: u64) -> Option<usize>
    ensures { result ≡ position (λ p. p.value.parts.id == id) pools.now }
{
    pools.iter().position(|pool| u64::from(pool.id()) == id)
}

/// Returns the place of the first pool whose id is at least `id`.
fn not_below(pools: &[Rc<TenantPool>], id: u32) -> Option<usize>
    ensures { result ≡ position (λ p. nat_le id p.value.parts.id) pools.now }
{
    pools.iter().position(|pool| pool.id() >= id)
}

/// Returns the place of the first pool whose id is at least `id`; where there is none, the number
/// of pools.
fn place_of(pools: &[Rc<TenantPool>], id: u32) -> usize
    ensures { result ≡ position_or_len (λ p. nat_le id p.value.parts.id) pools.now }
{
    match not_below(pools, id) {
        Some(place) => place,
        None => pools.len(),
    }
}

/// Returns whether the ids ascend, so that none comes twice.
fn are_ascending(pools: &[Rc<TenantPool>]) -> bool
    ensures { result ≡ is_ascending is_lower_pool (map (λ p. p.value) pools.now) }
{
    let mut rest = pools;
    while let [pool, others @ ..] = rest {
        if !is_below_first(pool, others) {
            return false;
        }
        rest = others;
    }
    true
}

/// Returns whether the pool's id is below that of the first of `others`, if there is one.
fn is_below_first(pool: &TenantPool, others: &[Rc<TenantPool>]) -> bool
    ensures { result ≡ is_before_first is_lower_pool pool.now (map (λ p. p.value) others.now) }
{
    match others {
        [next, ..] => pool.id() < next.id(),
        [] => true,
    }
}

/// Stores a pool at its place in the order of ids, in place of one with the same id.
/// `Err(AllocError)`: an allocation failed; nothing is changed.
fn insert(pools: &mut Vec<Rc<TenantPool>>, new: Rc<TenantPool>) -> Result<(), AllocError>
    ensures { OnOk result (map (λ p. p.value) pools.new.items ≡ with_element (λ p. p.parts.id) new.value (map (λ p. p.value) pools.old.items)) }
{
    let id = new.id();
    let place = place_of(pools, id);
    if place < pools.len() && pools[place].id() == id {
        pools[place] = new;
    } else {
        pools.insert(place, new)?;
    }
    Ok(())
}

//! A pool of a tenant, with its exceptions.

ghost use Rattle.std.specs.Prelude.{◌≡◌, nat_lt};
ghost use Rattle.std.specs.List.{list_all};

use crate::size::size_of_pool;
use crush_pool::{Exceptions, Pair, Pool, PoolParts, SharedExceptions};
use std::alloc::{AllocError, Global};
use std::marker::Model;
use std::rc::Rc;

/// A pool and its exceptions, both of which are shared. Contracts see the pool's settings and its
/// pairs, which are exceptions that it can have.
#[derive(Drop)]
pub struct TenantPool {
    id: u32,
    pool: Rc<Pool>,
    exceptions: SharedExceptions,
    size: u64,
}

impl Model for TenantPool {
    ghost use Rattle.std.specs.Prelude.{◌≡◌, ◌-◌, ◌^◌, min, true};
    ghost use Rattle.crush_pool.specs.Exceptions.{are_pairs};
    ghost use Rattle.tenant_state.specs.Size.{pool_size};
    ghost use Rattle.tenant_state.specs.State.{TenantPool};

    ghost Value = { TenantPool };

    ghost view = { λ a. record { parts = a.pool.value; pairs = a.exceptions } };

    ghost invariant = { λ a. record {
      id : a.id ≡ a.pool.value.id;
      pairs : are_pairs a.pool.value.pg_num a.exceptions ≡ true;
      size : a.size ≡ min (pool_size (record { parts = a.pool.value; pairs = a.exceptions })) (2 ^ 64 - 1);
    } };
}

impl TenantPool {
    ghost use Rattle.std.specs.Prelude.{◌≡◌, ◌-◌, ◌^◌, [], IfOk, min, true};
    ghost use Rattle.crush_pool.specs.Exceptions.{are_pairs};
    ghost use Rattle.tenant_state.specs.Size.{pool_size};

    /// Makes a pool with no exceptions. `Err(AllocError)`: an allocation failed; the pool is
    /// dropped.
    pub fn new(alloc: Global, pool: Rc<Pool>) -> Result<Self, AllocError>
        ensures { IfOk result (λ p. p ≡ record { parts = pool.value; pairs = [] }) }
    {
        let exceptions = SharedExceptions::new(alloc, Exceptions::none(alloc)?)?;
        Ok(TenantPool::of(pool, exceptions))
    }

    /// Makes a pool with `exceptions`, each of which is of a group of the pool. Takes time linear
    /// in their number. Allocates nothing.
    pub fn of(pool: Rc<Pool>, exceptions: SharedExceptions) -> Self
        requires { are_pairs pool.value.pg_num exceptions ≡ true }
        ensures { result ≡ record { parts = pool.value; pairs = exceptions } }
    {
        let id = pool.parts().id;
        let size = size_of_pool(exceptions.exceptions().pairs());
        TenantPool {
            id,
            pool,
            exceptions,
            size,
        }
    }

    /// Returns whether the pool can have `exceptions`: each is of a group of the pool.
    pub fn can_have(&self, exceptions: &SharedExceptions) -> bool
        ensures { result ≡ are_pairs self.now.parts.pg_num exceptions.now }
    {
        let groups = self.parts().pg_num;
        are_below(exceptions.exceptions().pairs(), groups)
    }

    /// Makes the same pool with `exceptions` in place of its own. Takes time linear in their
    /// number. It allocates nothing, but gives `Err(AllocError)` where a count of owners is full.
    pub fn with_exceptions(&self, exceptions: &SharedExceptions) -> Result<Self, AllocError>
        requires { are_pairs self.now.parts.pg_num exceptions.now ≡ true }
        ensures { IfOk result (λ p. p ≡ record { parts = self.now.parts; pairs = exceptions.now }) }
    {
        Ok(TenantPool::of(self.pool.clone()?, exceptions.share()?))
    }

    /// Returns the id of the pool.
    pub fn id(&self) -> u32
        ensures { result ≡ self.now.parts.id }
    {
        self.id
    }

    /// Returns the pool.
    pub fn pool(&self) -> &Pool
        ensures { result.now ≡ self.now.parts }
    {
        self.pool.as_ref()
    }

    /// Returns the shared pool.
    pub fn shared_pool(&self) -> &Rc<Pool>
        ensures { result.now.value ≡ self.now.parts }
    {
        &self.pool
    }

    /// Returns the settings of the pool.
    pub fn parts(&self) -> &PoolParts
        ensures { result.now ≡ self.now.parts }
    {
        self.pool.parts()
    }

    /// Returns the exceptions of the pool.
    pub fn exceptions(&self) -> &Exceptions
        ensures same { result.now ≡ self.now.pairs }
        ensures valid { are_pairs self.now.parts.pg_num self.now.pairs ≡ true }
    {
        self.exceptions.exceptions()
    }

    /// Returns the shared exceptions of the pool.
    pub fn shared_exceptions(&self) -> &SharedExceptions
        ensures { result.now ≡ self.now.pairs }
    {
        &self.exceptions
    }

    /// Returns the bytes of memory that the pool takes at most, by an estimate.
    pub fn size(&self) -> u64
        ensures { result ≡ min (pool_size self.now) (2 ^ 64 - 1) }
    {
        self.size
    }
}

/// Returns whether the group of each pair is below `groups`.
fn are_below(pairs: &[Pair], groups: u32) -> bool
    ensures { result ≡ list_all (λ p. nat_lt p.group groups) pairs.now }
{
    pairs.iter().all(|pair| pair.group < groups)
}

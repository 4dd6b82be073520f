//! Pools, at `/t/{t}/pools`: POST creates one. At `/t/{t}/pools/remove` POST removes one.

ghost use Rattle.std.specs.Prelude.{◌≡◌, ◌<◌, ◌^◌, false, IfOk, codes, length};
ghost use Rattle.std.specs.List.{list_any};
ghost use Rattle.serde_json.specs.View.{view};
ghost use Rattle.serde_json.specs.Written.{has_float};
ghost use Rattle.crush_pool.specs.declared.pool.PoolParts.{PoolParts};
ghost use Rattle.tenant_messages.specs.Json as json;
ghost use Rattle.tenant_messages.specs.Reading.{Reads};
ghost use Rattle.tenant_messages.specs.Refusals.{Gives};
ghost use Rattle.tenant_resources.specs.Pools as spec;
ghost use Rattle.tenant_resources.specs.Orders.{accepted_of};
ghost use Rattle.tenant_state.specs.State as state;

use crate::accepted::Acceptance;
use crush_map::Text;
use crush_pool::limits::POOL_ID_LIMIT;
use crush_pool::{Pool, PoolParts, rule_with_id};
use serde_json::{Value, json};
use std::alloc::{AllocError, Global};
use std::rc::Rc;
use tenant_messages::{
    Problem, Refusal, SuccessStatus, boolean, has_keys, natural, request_number, text,
};
use tenant_state::limits::POOL_LIMIT;
use tenant_state::{Inventory, Pools, Product, TenantPool};

// ---- the body of a creation

/// Reads whether the kind under the key `kind` is `erasure` (`true`) or `replicated` (`false`);
/// returns `None` where it is neither.
fn is_erasure(value: &Value) -> Option<bool>
    ensures { result ≡ json.under (codes "kind") spec.kind_of (view value.now) }
{
    let kind = text(value, "kind")?;
    if kind == "replicated" {
        Some(false)
    } else if kind == "erasure" {
        Some(true)
    } else {
        None
    }
}

/// Reads the whole number under a key, if it is below 2^32.
fn number_under(value: &Value, key: &str) -> Option<u32>
    ensures { result ≡ spec.number_under key.now (view value.now) }
{
    natural(value, key, 4_294_967_295)
}

/// What a body says of a pool's size, its rule, its numbers of groups and of their places, and
/// whether seeds are hashed.
#[derive(Clone, Copy)]
struct Sizes {
    size: u32,
    rule: u32,
    pg_num: u32,
    pgp_num: u32,
    hashpspool: bool,
}

/// Reads the sizes; returns `None` where a value doesn't have its form.
fn read_sizes(value: &Value) -> Option<Sizes>
    ensures { result ≡ spec.sizes_of (view value.now) }
{
    let size = number_under(value, "size")?;
    let rule = number_under(value, "rule")?;
    let pg_num = number_under(value, "pg_num")?;
    let pgp_num = number_under(value, "pgp_num")?;
    let hashpspool = boolean(value, "hashpspool")?;
    Some(Sizes {
        size,
        rule,
        pg_num,
        pgp_num,
        hashpspool,
    })
}

/// Reads the request number and the parts of a pool that a body's value says, without a test of the
/// ranges of a pool. The problem is `BadRequest`, exactly where a value doesn't have its form.
fn parts(alloc: Global, value: &Value) -> Result<(Text, PoolParts), Refusal>
    ensures { Reads (λ asked. asked) result (spec.parts_of (view value.now)) }
{
    let number = request_number(value).ok_or(Problem::BadRequest)?;
    let id = number_under(value, "id").ok_or(Problem::BadRequest)?;
    let name = text(value, "name").ok_or(Problem::BadRequest)?;
    let erasure = is_erasure(value).ok_or(Problem::BadRequest)?;
    let sizes = read_sizes(value).ok_or(Problem::BadRequest)?;
    let name = Text::copy(alloc, name)?;
    let parts = PoolParts {
        id,
        name,
        erasure,
        size: sizes.size,
        rule: sizes.rule,
        pg_num: sizes.pg_num,
        pgp_num: sizes.pgp_num,
        hashpspool: sizes.hashpspool,
    };
    Ok((Text::copy(alloc, number)?, parts))
}

/// Reads the request number and the pool that a body's value says. The problem is `BadRequest`,
/// exactly where the value doesn't have the form (`IsPoolBody`).
pub fn read_pool(alloc: Global, value: &Value) -> Result<(Text, Pool), Refusal>
    ensures { Reads (λ asked. asked) result (spec.pool_of (view value.now)) }
{
    if !has_keys(value, 9) {
        return Err(Refusal::Problem(Problem::BadRequest));
    }
    let (number, parts) = parts(alloc, value)?;
    match Pool::new(parts) {
        Ok(pool) => Ok((number, pool)),
        Err(_) => Err(Refusal::Problem(Problem::BadRequest)),
    }
}

// ---- the body of a removal

/// Reads the request number and the id of the pool to remove that a body's value says. The problem
/// is `BadRequest`, exactly where the value doesn't have the form (`IsRemovalBody`).
pub fn read_removal(alloc: Global, value: &Value) -> Result<(Text, u32), Refusal>
    ensures { Reads (λ asked. asked) result (spec.removal_of (view value.now)) }
{
    if !has_keys(value, 2) {
        return Err(Refusal::Problem(Problem::BadRequest));
    }
    let number = request_number(value).ok_or(Problem::BadRequest)?;
    let id = natural(value, "id", POOL_ID_LIMIT).ok_or(Problem::BadRequest)?;
    if id == 0 {
        return Err(Refusal::Problem(Problem::BadRequest));
    }
    Ok((Text::copy(alloc, number)?, id))
}

// ---- creating a pool

/// Returns whether the pool `other` has the id or the name of the pool `parts`.
fn is_like(parts: &PoolParts, other: &TenantPool) -> bool
    ensures { result ≡ state.is_like parts.now other.now }
{
    let other = other.parts();
    other.id == parts.id || other.name.as_str() == parts.name.as_str()
}

/// Returns whether one of the pools `pools` has the id or the name of the pool `parts`.
fn is_any_like(parts: &PoolParts, pools: &[Rc<TenantPool>]) -> bool
    ensures { result ≡ list_any (λ p. state.is_like parts.now p.value) pools.now }
{
    pools.iter().any(|pool| is_like(parts, pool))
}

/// Returns whether one of a tenant's pools has the id or the name of the pool `parts`.
fn is_taken(parts: &PoolParts, pools: &Pools) -> bool
    ensures { result ≡ list_any (state.is_like parts.now) pools.now }
{
    is_any_like(parts, pools.as_slice())
}

/// Makes the body of the reply: the epoch after the creation, and the pool's id.
fn creation_reply(alloc: Global, id: u32, inventory: &Inventory) -> Result<Value, AllocError>
    requires receipts { inventory.now.epoch < 2 ^ 32 }
    ensures { IfOk result (λ v. view v ≡ spec.creation_reply id inventory.now) }
{
    json!(in alloc; {"epoch": inventory.epoch() + 1, "pool": id})
}

/// Copies a pool and shares the copy. `Err(AllocError)`: an allocation failed; nothing is changed.
fn shared(alloc: Global, pool: &Pool) -> Result<Rc<Pool>, AllocError>
    ensures { IfOk result (λ again. again.value ≡ pool.now) }
{
    let parts = pool.parts();
    let copy = Pool::new(PoolParts {
        name: Text::copy(alloc, parts.name.as_str())?,
        ..*parts
    });
    match copy {
        Ok(pool) => Ok(Rc::new(alloc, pool)?),
        Err(_) => unreachable!(),
    }
}

/// Accepts one more pool, with the reply. The problem is, in this order, `NoVersion`, `NoRule`
/// where the newest version lacks the pool's rule, `Exists` where a pool has the id or the name, or
/// `TenantLimit` where there are `POOL_LIMIT` pools already.
pub fn create(alloc: Global, pool: &Pool, inventory: &Inventory) -> Result<Acceptance, Refusal>
    requires { inventory.now.epoch < 2 ^ 32 }
    ensures given { Gives accepted_of result (spec.created pool.now inventory.now) }
    ensures plain { IfOk result (λ a. has_float (view a.body) ≡ false) }
{
    let parts = pool.parts();
    let Some(version) = inventory.version(inventory.newest()) else {
        return Err(Refusal::Problem(Problem::NoVersion));
    };
    if rule_with_id(version.map(), parts.rule).is_none() {
        return Err(Refusal::Problem(Problem::NoRule));
    }
    if is_taken(parts, inventory.pools()) {
        return Err(Refusal::Problem(Problem::Exists));
    }
    if inventory.pools().len() >= POOL_LIMIT {
        return Err(Refusal::Problem(Problem::TenantLimit));
    }
    Ok(Acceptance {
        made: Product::Pool(shared(alloc, pool)?),
        status: SuccessStatus::Created,
        body: creation_reply(alloc, parts.id, inventory)?,
    })
}

// ---- removing a pool

/// Makes the body of the reply: the epoch after the removal, and the pool's id.
fn removal_reply(alloc: Global, id: u32, inventory: &Inventory) -> Result<Value, AllocError>
    requires receipts { inventory.now.epoch < 2 ^ 32 }
    ensures { IfOk result (λ v. view v ≡ spec.removal_reply id inventory.now) }
{
    json!(in alloc; {"epoch": inventory.epoch() + 1, "removed": id})
}

/// Accepts the removal of the pool that has `id`, with the reply. The problem is `NoPool`, where
/// there is no such pool.
pub fn remove(alloc: Global, id: u32, inventory: &Inventory) -> Result<Acceptance, Refusal>
    requires { inventory.now.epoch < 2 ^ 32 }
    ensures given { Gives accepted_of result (spec.removed id inventory.now) }
    ensures plain { IfOk result (λ a. has_float (view a.body) ≡ false) }
{
    if inventory.pools().get(u64::from(id)).is_none() {
        return Err(Refusal::Problem(Problem::NoPool));
    }
    Ok(Acceptance {
        made: Product::NoPool(id),
        status: SuccessStatus::Done,
        body: removal_reply(alloc, id, inventory)?,
    })
}

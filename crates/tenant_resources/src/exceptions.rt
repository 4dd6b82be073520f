//! Placement exceptions of pools: at `/t/{t}/pools/exceptions` POST sets those of a pool, and at
//! `/t/{t}/pools/{p}/exceptions` GET reads them.

ghost use Rattle.std.specs.Prelude.{◌≡◌, ◌<◌, ◌^◌, false, IfOk, Ok, Err, if◌then◌else◌, map};
ghost use Rattle.serde_json.specs.View.{view, items_view};
ghost use Rattle.serde_json.specs.Written.{has_float};
ghost use Rattle.crush_pool.specs.Exceptions.{are_pairs};
ghost use Rattle.tenant_messages.specs.Json as json;
ghost use Rattle.tenant_messages.specs.Reading.{Reads};
ghost use Rattle.tenant_messages.specs.Refusals.{Answers, Gives};
ghost use Rattle.tenant_messages.specs.Slots.{list_json};
ghost use Rattle.tenant_resources.specs.Exceptions as spec;
ghost use Rattle.tenant_resources.specs.Orders.{accepted_of};

use crate::accepted::Acceptance;
use crate::devices::has_device;
use crush_map::{Sequence, Text};
use crush_pool::limits::{GROUP_LIMIT, POOL_ID_LIMIT};
use crush_pool::{Exceptions, Pair, SharedExceptions, are_pairs};
use serde_json::{Value, json};
use std::alloc::{AllocError, Global};
use tenant_messages::{
    Problem, Refusal, Reply, SuccessStatus, has_keys, natural, request_number, success,
};
use tenant_state::{Inventory, Product, TenantPool, Version};

// ---- the body

/// Reads the pair that a value of the list says, without a test of its ranges; returns `None` where
/// the value doesn't have the form of a pair.
fn pair(value: &Value) -> Option<Pair>
    ensures { result ≡ spec.pair_of (view value.now) }
{
    if !has_keys(value, 3) {
        return None;
    }
    let group = natural(value, "group", 4_294_967_295)?;
    let from = natural(value, "from", 4_294_967_295)?;
    let to = natural(value, "to", 4_294_967_295)?;
    Some(Pair { group, from, to })
}

/// Reads the pairs that `values` say, in their order. The problem is `BadRequest`, exactly where a
/// value doesn't have the form of a pair.
fn pairs(alloc: Global, values: &[Value]) -> Result<Vec<Pair>, Refusal>
    ensures { Reads (λ v. v.items) result (json.each_of spec.pair_of (items_view values.now)) }
{
    let mut found = Vec::new(alloc);
    for value in values {
        let next = pair(value).ok_or(Problem::BadRequest)?;
        if found.push(next).is_err() {
            return Err(Refusal::NoMemory);
        }
    }
    Ok(found)
}

/// Reads the request number, the id of the pool and the pairs that a body's value says. The problem
/// is `BadRequest`, exactly where the value doesn't have the form (`IsExceptionsBody`).
pub fn read_exceptions(
    alloc: Global,
    value: &Value,
) -> Result<(Text, (u32, Sequence<Pair>)), Refusal>
    ensures { Reads (λ asked. asked) result (spec.exceptions_of (view value.now)) }
{
    if !has_keys(value, 3) {
        return Err(Refusal::Problem(Problem::BadRequest));
    }
    let number = request_number(value).ok_or(Problem::BadRequest)?;
    let id = natural(value, "id", POOL_ID_LIMIT).ok_or(Problem::BadRequest)?;
    let values = value
        .get("exceptions")
        .and_then(Value::as_array)
        .ok_or(Problem::BadRequest)?;
    let found = pairs(alloc, values)?;
    if id >= 1 && are_pairs(GROUP_LIMIT, &found) {
        Ok((Text::copy(alloc, number)?, (id, Sequence::new(found))))
    } else {
        Err(Refusal::Problem(Problem::BadRequest))
    }
}

// ---- setting the pairs of a pool

/// Returns whether the map of `version` has both devices of each pair.
fn has_devices(version: &Version, pairs: &[Pair]) -> bool
    ensures { result ≡ spec.has_devices version.now pairs.now }
{
    pairs.iter().all(|pair| has_device(version, pair.from) && has_device(version, pair.to))
}

/// Copies pairs to shared exceptions of a pool. The problem is `NoGroup`, exactly where the pool
/// can't have them: of pairs that some pool can have, it lacks the group of one.
fn shared(alloc: Global, pool: &TenantPool, pairs: &[Pair]) -> Result<SharedExceptions, Refusal>
    ensures { Gives (λ e. e) result (if are_pairs pool.now.parts.pg_num pairs.now then Ok pairs.now else Err Problem.NoGroup) }
{
    let mut copy = Vec::with_capacity(alloc, pairs.len())?;
    copy.extend_from_slice(pairs)?;
    match Exceptions::new(alloc, pool.pool(), copy)? {
        Ok(exceptions) => Ok(SharedExceptions::new(alloc, exceptions)?),
        Err(_) => Err(Refusal::Problem(Problem::NoGroup)),
    }
}

/// Makes the body of the reply: the epoch after the change, the number of pairs, and the pool's id.
fn setting(
    alloc: Global,
    id: u32,
    pairs: &[Pair],
    inventory: &Inventory,
) -> Result<Value, AllocError>
    requires receipts { inventory.now.epoch < 2 ^ 32 }
    ensures { IfOk result (λ v. view v ≡ spec.setting id pairs.now inventory.now) }
{
    json!(in alloc; {
        "epoch": inventory.epoch() + 1,
        "exceptions": pairs.len() as u64,
        "pool": id
    })
}

/// Accepts `pairs` as all the exceptions of the pool that has `id`, with the reply. The problem is,
/// in this order, `NoPool`, `NoGroup` where the pool lacks the group of one of the pairs
/// (`shared`), `NoVersion`, or `NoDevice` where the newest version lacks a device of one of them.
pub fn set(
    alloc: Global,
    id: u32,
    pairs: &[Pair],
    inventory: &Inventory,
) -> Result<Acceptance, Refusal>
    requires { inventory.now.epoch < 2 ^ 32 }
    ensures given { Gives accepted_of result (spec.exceptions_set id pairs.now inventory.now) }
    ensures plain { IfOk result (λ a. has_float (view a.body) ≡ false) }
{
    let pool = inventory.pools().get(u64::from(id)).ok_or(Problem::NoPool)?;
    let exceptions = shared(alloc, pool, pairs)?;
    let Some(version) = inventory.version(inventory.newest()) else {
        return Err(Refusal::Problem(Problem::NoVersion));
    };
    if !has_devices(version, pairs) {
        return Err(Refusal::Problem(Problem::NoDevice));
    }
    Ok(Acceptance {
        made: Product::Exceptions(id, exceptions),
        status: SuccessStatus::Done,
        body: setting(alloc, id, pairs, inventory)?,
    })
}

// ---- the answer

/// Makes the JSON of a pair.
fn pair_json(alloc: Global, pair: &Pair) -> Result<Value, AllocError>
    ensures { IfOk result (λ v. view v ≡ spec.pair_json pair.now) }
{
    json!(in alloc; {"from": pair.from, "group": pair.group, "to": pair.to})
}

fn pairs_json(alloc: Global, pairs: &[Pair]) -> Result<Value, AllocError>
    ensures { IfOk result (λ v. view v ≡ list_json (map spec.pair_json pairs.now)) }
{
    let mut values = Vec::with_capacity(alloc, pairs.len())?;
    for pair in pairs {
        values.push(pair_json(alloc, pair)?)?;
    }
    Ok(Value::Array(values))
}

/// Makes the body of the reply with the pairs of a pool.
fn exceptions_reply(
    alloc: Global,
    inventory: &Inventory,
    pool: &TenantPool,
) -> Result<Value, AllocError>
    ensures { IfOk result (λ v. view v ≡ spec.exceptions_reply inventory.now pool.now) }
{
    let pairs = pairs_json(alloc, pool.exceptions().pairs())?;
    json!(in alloc; {
        "epoch": inventory.epoch(),
        "exceptions": pairs,
        "pool": pool.parts().id
    })
}

/// Makes the reply with the pairs of the pool that has `id`, in their order. The problem is
/// `NoPool`, where there is no such pool.
pub fn answer(alloc: Global, id: u64, inventory: &Inventory) -> Result<Reply, Refusal>
    ensures { Answers result (spec.exceptions_answer id inventory.now) }
{
    let pool = inventory.pools().get(id).ok_or(Problem::NoPool)?;
    let body = exceptions_reply(alloc, inventory, pool)?;
    Ok(success(alloc, &body)?)
}

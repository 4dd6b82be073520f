//! JSON of what rules answer.

ghost use Rattle.std.specs.Prelude.{◌≡◌, IfOk, map};
ghost use Rattle.serde_json.specs.View.{view};
ghost use Rattle.tenant_messages.specs.Reply.{natural};
ghost use Rattle.tenant_messages.specs.Slots as spec;

use crush_map::ItemId;
use serde_json::Value;
use std::alloc::{AllocError, Global};

/// Returns an item as a JSON number, or `null` for none.
pub fn slot_json(slot: &Option<ItemId>) -> Value
    ensures { view result ≡ spec.slot_json slot.now }
{
    match slot {
        None => Value::Null,
        Some(item) => Value::from(i64::from(item.0)),
    }
}

/// Makes a JSON list of items and `null`.
pub fn slots_json(alloc: Global, slots: &[Option<ItemId>]) -> Result<Value, AllocError>
    ensures { IfOk result (λ v. view v ≡ spec.list_json (map spec.slot_json slots.now)) }
{
    let mut values = Vec::with_capacity(alloc, slots.len())?;
    for slot in slots {
        values.push(slot_json(slot))?;
    }
    Ok(Value::Array(values))
}

/// Makes a JSON list of numbers.
pub fn ids_json(alloc: Global, ids: &[u32]) -> Result<Value, AllocError>
    ensures { IfOk result (λ v. view v ≡ spec.list_json (map natural ids.now)) }
{
    let mut values = Vec::with_capacity(alloc, ids.len())?;
    for id in ids {
        values.push(Value::from(u64::from(*id)))?;
    }
    Ok(Value::Array(values))
}

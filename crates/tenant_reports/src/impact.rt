//! Which groups of a pool a device can touch: at `/t/{t}/pools/{p}/impact/{d}` GET reads those in
//! whose trace it is, or which have a pair that leads to it, on the newest version.

ghost use Rattle.std.specs.Prelude.{◌≡◌, IfOk, map};
ghost use Rattle.serde_json.specs.View.{view};
ghost use Rattle.tenant_messages.specs.Refusals.{Answers, Gives};
ghost use Rattle.tenant_messages.specs.Reply as replies;
ghost use Rattle.tenant_messages.specs.Reply.{natural};
ghost use Rattle.tenant_messages.specs.Slots.{list_json};
ghost use Rattle.tenant_reports.specs.Impact as spec;

use crush_map::{Device, Sequence};
use crush_report::impact_with;
use serde_json::{Value, json};
use std::alloc::{AllocError, Global};
use tenant_messages::{Problem, Refusal, Reply, ids_json, success};
use tenant_state::{Inventory, TenantPool};

// ---- the groups

/// Returns the id of the device with the number `number`, if there is one.
pub fn id_of(devices: &[Device], number: u64) -> Option<u32>
    ensures { result ≡ spec.id_of devices.now number }
{
    for device in devices {
        if u64::from(device.id) == number {
            return Some(device.id);
        }
    }
    None
}

/// Finds the groups on the newest version that the device with the number `number` can touch,
/// ascending. The problem is `NoVersion`, `NoRule`, or `NoDevice`.
fn groups_of(
    alloc: Global,
    inventory: &Inventory,
    pool: &TenantPool,
    number: u64,
) -> Result<Sequence<u32>, Refusal>
    ensures { Gives (λ groups. groups) result (spec.groups_of inventory.now pool.now number) }
{
    let placer = inventory.on_newest(pool)?;
    let device = id_of(placer.map().devices(), number).ok_or(Problem::NoDevice)?;
    let groups = impact_with(alloc, &placer, device)?;
    Ok(groups)
}

// ---- the answer

/// Makes the body of the reply with the numbers of the groups.
fn impact_reply(
    alloc: Global,
    inventory: &Inventory,
    id: u32,
    device: u64,
    groups: &[u32],
) -> Result<Value, AllocError>
    ensures { IfOk result (λ v. view v ≡ spec.impact_reply inventory.now id device groups.now) }
{
    let groups = ids_json(alloc, groups)?;
    json!(in alloc; {
        "device": device,
        "epoch": inventory.epoch(),
        "groups": groups,
        "pool": id,
        "version": inventory.newest()
    })
}

/// Makes the reply with the groups of the pool `id` that the device `device` can touch.
/// `Err(AllocError)`: an allocation failed; nothing is changed.
pub fn touched_reply(
    alloc: Global,
    inventory: &Inventory,
    id: u32,
    device: u64,
    groups: &[u32],
) -> Result<Reply, AllocError>
    ensures { IfOk result (λ r. r ≡ replies.reply (replies.success (spec.impact_reply inventory.now id device groups.now))) }
{
    let body = impact_reply(alloc, inventory, id, device, groups)?;
    success(alloc, &body)
}

/// Finds the groups of the pool `id` that the device `device` can touch, and makes the reply. The
/// problem is, in this order, `NoPool`, `NoVersion`, `NoRule`, or `NoDevice` where the newest
/// version lacks the device.
pub fn answer(alloc: Global, id: u64, device: u64, inventory: &Inventory) -> Result<Reply, Refusal>
    ensures { Answers result (spec.impact_answer id device inventory.now) }
{
    let pool = inventory.pools().get(id).ok_or(Problem::NoPool)?;
    let groups = groups_of(alloc, inventory, pool, device)?;
    let id = pool.parts().id;
    Ok(touched_reply(alloc, inventory, id, device, groups.as_slice())?)
}

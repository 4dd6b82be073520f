//! States of devices, at `/t/{t}/devices`: POST changes reweights, and which devices are up.

ghost use Rattle.std.specs.Prelude.{◌≡◌, ◌<◌, ◌≤◌, ◌^◌, false, IfOk, codes, length, map};
ghost use Rattle.std.specs.List.{list_all};
ghost use Rattle.serde_json.specs.View.{view, items_view};
ghost use Rattle.serde_json.specs.Written.{has_float};
ghost use Rattle.crush_choose.specs.Weights.{reweight_of};
ghost use Rattle.crush_pool.specs.States.{is_up, reweights};
ghost use Rattle.tenant_messages.specs.Json as json;
ghost use Rattle.tenant_messages.specs.Reading.{Reads};
ghost use Rattle.tenant_messages.specs.Refusals.{Gives};
ghost use Rattle.tenant_resources.specs.Devices as spec;
ghost use Rattle.tenant_resources.specs.Orders.{accepted_of};

use crate::accepted::Acceptance;
use crush_choose::FULL;
use crush_map::limits::NUMBER_LIMIT;
use crush_map::{Sequence, Text};
use crush_pool::{DeviceChange, DeviceState, are_valid_changes};
use serde_json::{Value, json};
use std::alloc::{AllocError, Global};
use tenant_messages::{
    Problem, Refusal, SuccessStatus, has_keys, natural, optional_boolean, optional_natural,
    request_number,
};
use tenant_state::{Devices, Inventory, Product, Version};

// ---- the body

/// Counts the key `key` of the object: 1 if it is there, else 0.
fn present(value: &Value, key: &str) -> usize
    ensures count { result ≡ json.present key.now (view value.now) }
    ensures few { result ≤ 1 }
{
    if value.get(key).is_some() { 1 } else { 0 }
}

/// Reads the change that a value of the list says, or returns `None` where the value doesn't have
/// the form of a change.
fn change(value: &Value) -> Option<DeviceChange>
    ensures { result ≡ spec.change_of (view value.now) }
{
    let keys = present(value, "reweight") + (present(value, "up") + 1);
    if !has_keys(value, keys) {
        return None;
    }
    let device = natural(value, "id", NUMBER_LIMIT)?;
    let reweight = optional_natural(value, "reweight", FULL)?;
    let up = optional_boolean(value, "up")?;
    if reweight.is_none() && up.is_none() {
        return None;
    }
    Some(DeviceChange {
        device,
        reweight,
        up,
    })
}

/// Reads the changes that `values` say, in their order. The problem is `BadRequest`, exactly where
/// a value doesn't have the form of a change.
fn changes(alloc: Global, values: &[Value]) -> Result<Vec<DeviceChange>, Refusal>
    ensures { Reads (λ v. v.items) result (json.each_of spec.change_of (items_view values.now)) }
{
    let mut found = Vec::new(alloc);
    for value in values {
        let next = change(value).ok_or(Problem::BadRequest)?;
        if found.push(next).is_err() {
            return Err(Refusal::NoMemory);
        }
    }
    Ok(found)
}

/// Reads the request number and the changes that a body's value says. The problem is `BadRequest`,
/// exactly where the value doesn't have the form (`IsDevicesBody`).
pub fn read_changes(alloc: Global, value: &Value) -> Result<(Text, Sequence<DeviceChange>), Refusal>
    ensures { Reads (λ asked. asked) result (spec.changes_of (view value.now)) }
{
    if !has_keys(value, 2) {
        return Err(Refusal::Problem(Problem::BadRequest));
    }
    let number = request_number(value).ok_or(Problem::BadRequest)?;
    let values = value
        .get("devices")
        .and_then(Value::as_array)
        .ok_or(Problem::BadRequest)?;
    let found = changes(alloc, values)?;
    if are_valid_changes(&found) {
        Ok((Text::copy(alloc, number)?, Sequence::new(found)))
    } else {
        Err(Refusal::Problem(Problem::BadRequest))
    }
}

// ---- changing the states

/// Returns the reweight of a device, in 16.16 fixed point.
fn reweight(states: &Devices, device: u32) -> u32
    ensures { result ≡ reweight_of (reweights states.now) device }
{
    states.weights().get(device)
}

/// Returns whether a device is up.
fn is_up(states: &Devices, device: u32) -> bool
    ensures { result ≡ is_up states.now device }
{
    states.flags().is_up(device)
}

/// Returns the state of a device after a change.
fn changed(states: &Devices, change: &DeviceChange) -> DeviceState
    ensures { result ≡ spec.changed states.now change.now }
{
    let reweight = match change.reweight {
        Some(reweight) => reweight,
        None => reweight(states, change.device),
    };
    let up = match change.up {
        Some(up) => up,
        None => is_up(states, change.device),
    };
    DeviceState {
        device: change.device,
        reweight,
        up,
    }
}

/// Makes the state of each changed device after its change. `Err(AllocError)`: an allocation
/// failed; nothing is changed.
fn all_changed(
    alloc: Global,
    states: &Devices,
    changes: &[DeviceChange],
) -> Result<Vec<DeviceState>, AllocError>
    ensures { IfOk result (λ all. all.items ≡ map (spec.changed states.now) changes.now) }
{
    let mut all = Vec::with_capacity(alloc, changes.len())?;
    for change in changes {
        all.push(changed(states, change))?;
    }
    Ok(all)
}

/// Returns whether the map of `version` has the device `device`.
pub(crate) fn has_device(version: &Version, device: u32) -> bool
    ensures { result ≡ spec.has_device version.now device }
{
    version.tables().has_device(device)
}

/// Returns whether the map of `version` has each device of `changes`.
fn has_devices(version: &Version, changes: &[DeviceChange]) -> bool
    ensures { result ≡ list_all (λ c. spec.has_device version.now c.device) changes.now }
{
    changes
        .iter()
        .all(|change| has_device(version, change.device))
}

/// Makes the body of the reply: the number of changes, and the epoch after them.
fn devices_reply(alloc: Global, count: usize, inventory: &Inventory) -> Result<Value, AllocError>
    requires receipts { inventory.now.epoch < 2 ^ 32 }
    ensures { IfOk result (λ v. view v ≡ spec.devices_reply count inventory.now) }
{
    json!(in alloc; {"devices": count as u64, "epoch": inventory.epoch() + 1})
}

/// Accepts changes of devices: makes the new states, with the reply. The problem is `NoVersion`
/// where there is no version, and else `NoDevice` where the newest lacks one of the devices.
pub fn change_devices(
    alloc: Global,
    changes: &[DeviceChange],
    inventory: &Inventory,
) -> Result<Acceptance, Refusal>
    requires { inventory.now.epoch < 2 ^ 32 }
    ensures given { Gives accepted_of result (spec.devices_changed changes.now inventory.now) }
    ensures plain { IfOk result (λ a. has_float (view a.body) ≡ false) }
{
    let Some(version) = inventory.version(inventory.newest()) else {
        return Err(Refusal::Problem(Problem::NoVersion));
    };
    if !has_devices(version, changes) {
        return Err(Refusal::Problem(Problem::NoDevice));
    }
    let states = all_changed(alloc, inventory.devices(), changes)?;
    Ok(Acceptance {
        made: Product::States(Sequence::new(states)),
        status: SuccessStatus::Done,
        body: devices_reply(alloc, changes.len(), inventory)?,
    })
}

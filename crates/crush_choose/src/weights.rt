//! Reweights of devices, and the device test.

ghost use Rattle.std.specs.Prelude.{◌≡◌, ◌+◌, ◌-◌, ℕ, [], length, slice_get, Some, IfOk};
ghost use Rattle.crush_choose.specs.Weights as spec;
ghost use Rattle.crush_choose.specs.Weights.{weights_of, weight_at, reweight_of, is_device_in};
ghost use Rattle.crush_map.specs.declared.draft.Device.{Device};

use crush_hash::hash2;
use crush_map::{CrushMap, Device, DeviceVec, ItemId};
use std::alloc::{AllocError, Global};
use std::marker::Model;

/// 1.0 as a reweight, in 16.16 fixed point. A device with this reweight or more is always in, and a
/// device that is given no reweight has `FULL`.
pub const FULL: u32 = 65_536;

/// Reweights of devices in 16.16 fixed point. Contracts see those of all ids that a device can
/// have, in order.
#[derive(Drop)]
pub struct Weights {
    by_device: DeviceVec<u32>,
}

impl Model for Weights {
    ghost use Rattle.std.specs.Prelude.{List, ℕ, ◌≡◌};
    ghost use Rattle.crush_choose.specs.declared.weights.TheConstants.{FULL};

    ghost Value = { List ℕ };

    ghost view = { λ a. a.by_device.values };

    ghost invariant = { λ a. a.by_device.rest ≡ FULL };
}

impl Weights {
    /// Makes the table of the reweights in `given`, pairs of id and reweight, with memory up to the
    /// greatest id of a device of the map or of a pair.
    ///
    /// Of several pairs for one id the first counts. An id without a pair has `FULL`, and so has
    /// each id that no device can have. The map need not have a device with the id.
    ///
    /// `Err(AllocError)`: an allocation failed; nothing is changed.
    pub fn build(alloc: Global, map: &CrushMap, given: &[(u32, u32)]) -> Result<Weights, AllocError>
        ensures all { IfOk result (λ w. w ≡ weights_of given.now) }
        ensures each { IfOk result (λ w. (id : ℕ) → weight_at w id ≡ reweight_of given.now id) }
    {
        Weights::reaching(alloc, ids_reached(map.devices()), given)
    }

    /// Makes the table of the reweights in `given`, whatever the map is, with memory up to the
    /// greatest id of a pair.
    ///
    /// `Err(AllocError)`: an allocation failed; nothing is changed.
    pub fn of(alloc: Global, given: &[(u32, u32)]) -> Result<Weights, AllocError>
        ensures all { IfOk result (λ w. w ≡ weights_of given.now) }
        ensures each { IfOk result (λ w. (id : ℕ) → weight_at w id ≡ reweight_of given.now id) }
    {
        Weights::reaching(alloc, 0, given)
    }

    /// Makes the table of the reweights in `given`, with memory for at least `reached` ids.
    #[tactic(auto, unfolding(crate::specs::Weights::weights_of))]
    fn reaching(alloc: Global, reached: usize, given: &[(u32, u32)]) -> Result<Weights, AllocError>
        ensures all { IfOk result (λ w. w ≡ weights_of given.now) }
        ensures each { IfOk result (λ w. (id : ℕ) → weight_at w id ≡ reweight_of given.now id) }
    {
        let by_device = DeviceVec::of(alloc, FULL, reached, given)?;
        Ok(Weights { by_device })
    }

    /// Returns the reweight of an id.
    pub fn get(&self, device: u32) -> u32
        ensures { result ≡ weight_at self.now device }
    {
        self.by_device.get(device)
    }
}

/// Returns how many ids there are up to that of the last device.
fn ids_reached(devices: &[Device]) -> usize
    ensures none { devices.now ≡ [] → result ≡ 0 }
    ensures last { (device : Device) → slice_get devices.now (length devices.now - 1) ≡ Some device → result ≡ device.id + 1 }
{
    match devices.last() {
        Some(device) => device.id as usize + 1,
        None => 0,
    }
}

/// Returns whether a device is in for an input (`is_out` of Ceph's `mapper.c` answers the
/// opposite).
///
/// With a reweight of 65536 (1.0) or more it always is, and with 0 it never is. Else it is in where
/// a draw, the lower 16 bits of the hash of input and device, is below its reweight.
#[tactic(auto, unfolding(crate::specs::Weights::is_in))]
pub fn is_in(weights: &Weights, x: u32, device: u32) -> bool
    ensures { result ≡ spec.is_in weights.now x device }
{
    let weight = weights.get(device);
    weight >= FULL || (weight > 0 && hash2(x, device) % 65_536 < weight)
}

/// Returns whether an item is a device that is in.
pub(crate) fn is_device_in(weights: &Weights, x: u32, item: ItemId) -> bool
    ensures { result ≡ is_device_in weights.now x item }
{
    item.0 >= 0 && is_in(weights, x, item.0 as u32)
}

//! The states of devices that a tenant stored.

ghost use Rattle.std.specs.Prelude.{◌≡◌, IfOk, OnOk, nat_le, position};
ghost use Rattle.std.specs.List.{position_or_len};
ghost use Rattle.crush_pool.specs.States.{reweights};
ghost use Rattle.tenant_state.specs.Ordered.{is_ascending, is_before_first};
ghost use Rattle.tenant_state.specs.State.{is_lower_device, with_state};

use crate::size::size_of_states;
use crush_choose::Weights;
use crush_pool::{DeviceState, DeviceStates, SharedStates, reweights_of};
use std::alloc::{AllocError, Global};
use std::marker::Model;

/// States of devices, ready for rules and placements. Contracts see them in the order in which they
/// are stored, that of the devices' ids.
#[derive(Drop)]
pub struct Devices {
    states: SharedStates,
    weights: Weights,
    flags: DeviceStates,
    /// How many bytes the states take, with their tables.
    size: u64,
}

impl Model for Devices {
    ghost use Rattle.std.specs.Prelude.{◌≡◌, ◌-◌, ◌^◌, List, min};
    ghost use Rattle.crush_choose.specs.Weights.{weights_of};
    ghost use Rattle.crush_pool.specs.States.{flags_of, reweights};
    ghost use Rattle.crush_pool.specs.declared.states.DeviceState.{DeviceState};
    ghost use Rattle.tenant_state.specs.Size.{states_size};

    ghost Value = { List DeviceState };

    ghost view = { λ a. a.states };

    ghost invariant = { λ a. record {
      weights : a.weights ≡ weights_of (reweights a.states);
      flags : a.flags ≡ flags_of a.states;
      size : a.size ≡ min (states_size a.states) (2 ^ 64 - 1);
    } };
}

impl Devices {
    ghost use Rattle.std.specs.Prelude.{◌≡◌, ◌-◌, ◌^◌, [], IfOk, min};
    ghost use Rattle.crush_choose.specs.Weights.{weights_of};
    ghost use Rattle.crush_pool.specs.States.{flags_of, reweights};
    ghost use Rattle.tenant_state.specs.Ordered.{if_ascending};
    ghost use Rattle.tenant_state.specs.Size.{states_size};
    ghost use Rattle.tenant_state.specs.State.{is_lower_device, with_states};

    /// Makes a list without states: each device has the reweight 1.0 (65536 in 16.16 fixed point)
    /// and is up. `Err(AllocError)`: an allocation failed; nothing is changed.
    pub fn new(alloc: Global) -> Result<Self, AllocError>
        ensures { IfOk result (λ devices. devices ≡ []) }
    {
        Devices::of(alloc, Vec::new(alloc))
    }

    /// Makes the states of a list that is in the order of the devices' ids. `None`, exactly where a
    /// device comes twice or out of order. Takes time linear in the number of states and the
    /// greatest id. `Err(AllocError)`: an allocation failed; the list is dropped.
    pub fn from_list(alloc: Global, states: Vec<DeviceState>) -> Result<Option<Self>, AllocError>
        ensures { IfOk result (λ found. found ≡ if_ascending is_lower_device states.items) }
    {
        if are_ascending(&states) {
            Ok(Some(Devices::of(alloc, states)?))
        } else {
            Ok(None)
        }
    }

    /// Makes the tables of reweights and of flags for `states`, and shares the list.
    /// `Err(AllocError)`: an allocation failed; the list is dropped.
    fn of(alloc: Global, states: Vec<DeviceState>) -> Result<Self, AllocError>
        ensures { IfOk result (λ devices. devices ≡ states.items) }
    {
        let given = reweights_of(alloc, &states)?;
        let weights = Weights::of(alloc, &given)?;
        let flags = DeviceStates::build(alloc, &states)?;
        let size = size_of_states(&states);
        Ok(Devices {
            states: SharedStates::new(states)?,
            weights,
            flags,
            size,
        })
    }

    /// Returns the states, in the order of the devices' ids.
    pub fn states(&self) -> &[DeviceState]
        ensures { result.now ≡ self.now }
    {
        self.states.as_slice()
    }

    /// Returns the shared list of the states.
    pub fn shared_states(&self) -> &SharedStates
        ensures { result.now ≡ self.now }
    {
        &self.states
    }

    /// Returns the reweight of each device, in 16.16 fixed point.
    pub fn weights(&self) -> &Weights
        ensures { result.now ≡ weights_of (reweights self.now) }
    {
        &self.weights
    }

    /// Returns the flags that say which devices are up.
    pub fn flags(&self) -> &DeviceStates
        ensures { result.now ≡ flags_of self.now }
    {
        &self.flags
    }

    /// Returns the bytes of memory that the states take at most, with their tables, by an estimate.
    pub(crate) fn size(&self) -> u64
        ensures { result ≡ min (states_size self.now) (2 ^ 64 - 1) }
    {
        self.size
    }

    /// Makes a copy in which the states `changed` are stored, one after the other.
    /// `Err(AllocError)`: an allocation failed; nothing is changed.
    pub fn with(&self, alloc: Global, changed: &[DeviceState]) -> Result<Self, AllocError>
        ensures { IfOk result (λ devices. devices ≡ with_states changed.now self.now) }
    {
        let mut states = Vec::from_slice(alloc, self.states())?;
        for state in changed {
            insert(&mut states, *state)?;
        }
        Devices::of(alloc, states)
    }
}

/// Returns the place of the first state whose device's id is at least `device`.
fn not_below(states: &[DeviceState], device: u32) -> Option<usize>
    ensures { result ≡ position (λ s. nat_le device s.device) states.now }
{
    states.iter().position(|state| state.device >= device)
}

/// Returns the place of the first state whose device's id is at least `device`; where there is
/// none, the number of states.
fn place_of(states: &[DeviceState], device: u32) -> usize
    ensures { result ≡ position_or_len (λ s. nat_le device s.device) states.now }
{
    match not_below(states, device) {
        Some(place) => place,
        None => states.len(),
    }
}

/// Returns whether the ids ascend, so that no device comes twice.
fn are_ascending(states: &[DeviceState]) -> bool
    ensures { result ≡ is_ascending is_lower_device states.now }
{
    let mut rest = states;
    while let [state, others @ ..] = rest {
        if !is_below_first(state, others) {
            return false;
        }
        rest = others;
    }
    true
}

/// Returns whether the device's id is below that of the first of `others`, if there is one.
fn is_below_first(state: &DeviceState, others: &[DeviceState]) -> bool
    ensures { result ≡ is_before_first is_lower_device state.now others.now }
{
    match others {
        [next, ..] => state.device < next.device,
        [] => true,
    }
}

/// Stores a state at its place in the order of ids, in place of that of the same device.
/// `Err(AllocError)`: an allocation failed; nothing is changed.
fn insert(states: &mut Vec<DeviceState>, new: DeviceState) -> Result<(), AllocError>
    ensures { OnOk result (states.new.items ≡ with_state states.old.items new) }
{
    let place = place_of(states, new.device);
    if place < states.len() && states[place].device == new.device {
        states[place] = new;
    } else {
        states.insert(place, new)?;
    }
    Ok(())
}

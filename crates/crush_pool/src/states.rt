//! The states of devices, and lists of them that are shared, with their hash.

ghost use Rattle.std.specs.Prelude.{◌≡◌, IfOk, ℕ};
ghost use Rattle.crush_pool.specs.States as spec;
ghost use Rattle.crush_pool.specs.Hashes.{fed_with, state_writes, states_hash};

use crush_map::DeviceVec;
use std::alloc::{AllocError, Global};
use std::hash::{FoldHasher, Hash, Hasher};
use std::marker::Model;
use std::rc::RcSlice;

/// The state of a device.
#[derive(Clone, Copy, Debug, PartialEq, Eq)]
pub struct DeviceState {
    /// The id of the device.
    pub device: u32,
    /// Its reweight in 16.16 fixed point, 0..`FULL`: with `FULL` (1.0) the device takes all that
    /// CRUSH gives it, with 0 nothing.
    pub reweight: u32,
    /// Whether it is up; else it is down.
    pub up: bool,
}

/// Makes the list of pairs of device and reweight. `Err(AllocError)`: an allocation failed.
pub fn reweights_of(alloc: Global, states: &[DeviceState]) -> Result<Vec<(u32, u32)>, AllocError>
    ensures { IfOk result (λ given. given.items ≡ spec.reweights states.now) }
{
    let mut given = Vec::with_capacity(alloc, states.len())?;
    for state in states {
        given.push((state.device, state.reweight))?;
    }
    Ok(given)
}

/// Which devices are up. Contracts see a flag for each id that a device can have, in order.
#[derive(Drop)]
pub struct DeviceStates {
    by_device: DeviceVec<bool>,
}

impl Model for DeviceStates {
    ghost use Rattle.std.specs.Prelude.{◌≡◌, List, Bool, true};

    ghost Value = { List Bool };

    ghost view = { λ a. a.by_device.values };

    ghost invariant = { λ a. a.by_device.rest ≡ true };
}

impl DeviceStates {
    /// Makes the flags of `states`, with memory up to the greatest id of a state.
    /// `Err(AllocError)`: an allocation failed.
    ///
    /// Of several states for one id the first counts. An id without a state is up, and so is each
    /// id that no device can have.
    pub fn build(alloc: Global, states: &[DeviceState]) -> Result<DeviceStates, AllocError>
        ensures all { IfOk result (λ s. s ≡ spec.flags_of states.now) }
        ensures each { IfOk result (λ s. (id : ℕ) → spec.up_at s id ≡ spec.is_up states.now id) }
    {
        let mut by_device = DeviceVec::new(alloc, true, 0)?;
        for place in (0..states.len()).rev() {
            let state = states[place];
            by_device.set(state.device, state.up)?;
        }
        Ok(DeviceStates { by_device })
    }

    /// Returns whether the device with the id `device` is up.
    pub fn is_up(&self, device: u32) -> bool
        ensures { result ≡ spec.up_at self.now device }
    {
        self.by_device.get(device)
    }
}

/// States of devices that are shared, and not copied, by all who have them. Contracts see the
/// states, in order.
#[derive(Drop)]
pub struct SharedStates {
    states: RcSlice<DeviceState>,
    /// The hash of the states, which is made once.
    hash: u64,
}

impl Model for SharedStates {
    ghost use Rattle.std.specs.Prelude.{◌≡◌, List};
    ghost use Rattle.std.specs.Rc.{rc_slice_items};
    ghost use Rattle.crush_pool.specs.declared.states.DeviceState.{DeviceState};
    ghost use Rattle.crush_pool.specs.Hashes.{states_hash};

    ghost Value = { List DeviceState };

    ghost view = { λ a. rc_slice_items a.states };

    ghost invariant = { λ a. a.hash ≡ states_hash (rc_slice_items a.states) };
}

/// Feeds a state to a hasher.
fn feed(hasher: &mut FoldHasher, state: &DeviceState)
    ensures { hasher.new ≡ fed_with hasher.old (state_writes state.now) }
{
    state.device.hash(hasher);
    state.reweight.hash(hasher);
    state.up.hash(hasher);
}

/// Hashes states.
fn hash_of(states: &[DeviceState]) -> u64
    ensures { result ≡ states_hash states.now }
{
    let mut hasher = FoldHasher::default();
    for state in states {
        feed(&mut hasher, state);
    }
    hasher.finish()
}

impl SharedStates {
    ghost use Rattle.std.specs.Prelude.{◌≡◌, IfOk};
    ghost use Rattle.crush_pool.specs.Hashes.{states_hash};

    /// Makes states that can be shared. Takes time linear in their number, for the hash.
    /// `Err(AllocError)`: an allocation failed; the list is dropped.
    pub fn new(states: Vec<DeviceState>) -> Result<Self, AllocError>
        ensures { IfOk result (λ shared. shared ≡ states.items) }
    {
        let hash = hash_of(states.as_slice());
        let states = RcSlice::from_vec(states)?;
        Ok(SharedStates { states, hash })
    }

    /// Returns the states, in order.
    pub fn as_slice(&self) -> &[DeviceState]
        ensures { result.now ≡ self.now }
    {
        self.states.as_slice()
    }

    /// Returns the hash of the states.
    pub fn hash(&self) -> u64
        ensures { result ≡ states_hash self.now }
    {
        self.hash
    }

    /// Shares the states with one more who has them. Takes no memory, but can be refused where the
    /// number of those who share them is full.
    pub fn share(&self) -> Result<Self, AllocError>
        ensures { IfOk result (λ again. again ≡ self.now) }
    {
        Ok(SharedStates {
            states: self.states.clone()?,
            hash: self.hash,
        })
    }
}

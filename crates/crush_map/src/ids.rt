//! The ids of the devices and buckets declared so far.

ghost use Rattle.std.specs.Prelude.{◌≡◌, ◌≤◌, pos, IsTrue, OnOk, length};
ghost use Rattle.crush_map.specs.Faults as spec;
ghost use Rattle.crush_map.specs.Private.Tables as tables;
ghost use Rattle.crush_map.specs.declared.limits.TheConstants.{NUMBER_LIMIT};

use crate::numbers::Numbers;
use crush_types::ItemId;
use std::alloc::{AllocError, Global};
use std::marker::Model;

/// Ids of devices and ids of buckets, each in the order in which they were added. The id `-1 - n`
/// of a bucket is stored as `n`.
#[derive(Drop)]
pub struct Ids {
    devices: Numbers,
    buckets: Numbers,
}

impl Model for Ids {
    ghost use Rattle.crush_map.specs.Faults as spec;

    ghost Value = { spec.Ids };

    ghost view = { λ a. record { devices = a.devices; buckets = a.buckets } };
}

impl Ids {
    /// Returns the empty list.
    pub(crate) fn new(alloc: Global) -> Self
        ensures { result ≡ spec.no_ids }
    {
        Ids {
            devices: Numbers::new(alloc),
            buckets: Numbers::new(alloc),
        }
    }

    /// Returns how many ids of devices there are.
    pub(crate) fn devices(&self) -> usize
        ensures { result ≡ length self.now.devices }
    {
        self.devices.len()
    }

    /// Returns how many ids of buckets there are.
    pub(crate) fn buckets(&self) -> usize
        ensures { result ≡ length self.now.buckets }
    {
        self.buckets.len()
    }

    /// Returns whether a device with this id was added.
    pub(crate) fn has_device(&self, id: u32) -> bool
        ensures { result ≡ spec.has_number self.now.devices id }
    {
        self.devices.has(id)
    }

    /// Adds the id of a device.
    ///
    /// `Err(AllocError)`: an allocation failed; the value must not be used any more.
    pub(crate) fn add_device(&mut self, id: u32) -> Result<(), AllocError>
        requires { id ≤ NUMBER_LIMIT }
        ensures { OnOk result (self.new ≡ spec.with_id self.old (pos id)) }
    {
        self.devices.add(id)
    }

    /// Returns whether a device or bucket with this id was added.
    pub(crate) fn has(&self, id: ItemId) -> bool
        ensures value { result ≡ spec.has_id self.now id.0 }
        ensures known { IsTrue result → IsTrue (tables.is_id id.0) }
    {
        if id.0 < 0 {
            self.buckets.has(id.0.unsigned_abs() - 1)
        } else {
            self.devices.has(id.0.unsigned_abs())
        }
    }

    /// Adds an id.
    ///
    /// `Err(AllocError)`: an allocation failed; the value must not be used any more.
    pub(crate) fn add(&mut self, id: ItemId) -> Result<(), AllocError>
        requires { IsTrue (tables.is_id id.0) }
        ensures { OnOk result (self.new ≡ spec.with_id self.old id.0) }
    {
        if id.0 < 0 {
            self.buckets.add(id.0.unsigned_abs() - 1)
        } else {
            self.devices.add(id.0.unsigned_abs())
        }
    }
}

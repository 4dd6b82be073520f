//! The parts of a map, with tables by which names are looked up.

ghost use Rattle.std.specs.Prelude.{◌≡◌, ℕ, ℤ, IfOk, []};
ghost use Rattle.std.specs.BTreeMap.{get};
ghost use Rattle.std.specs.Option.{option_map_or};
ghost use Rattle.std.specs.Ordering.{int_cmp, nat_cmp};
ghost use Rattle.crush_map.specs.Map.{IsMap};
ghost use Rattle.crush_writing.specs.Canonical as spec;

use crush_map::{Bucket, CrushMap, Device, ItemId, Rule, Tunables, TypeName};
use std::alloc::{AllocError, Global};
use std::collections::BTreeMap;
use std::marker::Model;

/// Finds the name of the type with a number, or the empty text. A map has few types (`TYPE_LIMIT`),
/// so they are looked through in order.
#[tactic(auto, unfolding(crate::specs::Canonical::type_name))]
fn type_name<'a>(types: &'a [TypeName], number: u32) -> &'a str
    ensures { result.now ≡ spec.type_name types.now number }
{
    for declared in types {
        if declared.number == number {
            return declared.name.as_str();
        }
    }
    ""
}

/// Makes the table of the names of devices by id. If devices share an id, it has the first's name.
fn device_names<'a>(
    alloc: Global,
    devices: &'a [Device],
) -> Result<BTreeMap<u32, &'a str>, AllocError>
    ensures { IfOk result (λ names. (id : ℕ) → option_map_or (λ name. name.now) (get nat_cmp names id) [] ≡ spec.device_name devices.now id) }
{
    let mut names = BTreeMap::new(alloc);
    for place in (0..devices.len()).rev() {
        let device = &devices[place];
        names.insert(device.id, device.name.as_str())?;
    }
    Ok(names)
}

/// Makes the table of the names of buckets by id. If buckets share an id, it has the first's name.
fn bucket_names<'a>(
    alloc: Global,
    buckets: &'a [Bucket],
) -> Result<BTreeMap<i32, &'a str>, AllocError>
    ensures { IfOk result (λ names. (id : ℤ) → option_map_or (λ name. name.now) (get int_cmp names id) [] ≡ spec.bucket_name buckets.now id) }
{
    let mut names = BTreeMap::new(alloc);
    for place in (0..buckets.len()).rev() {
        let bucket = &buckets[place];
        names.insert(bucket.id.0, bucket.name.as_str())?;
    }
    Ok(names)
}

/// The parts of a map, and the names of its items by id. Contracts see the map.
#[derive(Drop)]
pub(crate) struct NamesById<'a> {
    pub(crate) types: &'a [TypeName],
    pub(crate) devices: &'a [Device],
    pub(crate) buckets: &'a [Bucket],
    pub(crate) rules: &'a [Rule],
    pub(crate) tunables: Tunables,
    by_device: BTreeMap<u32, &'a str>,
    by_bucket: BTreeMap<i32, &'a str>,
}

impl<'a> Model for NamesById<'a> {
    ghost use Rattle.std.specs.Prelude.{◌≡◌, ℕ, ℤ, []};
    ghost use Rattle.std.specs.BTreeMap.{get};
    ghost use Rattle.std.specs.Option.{option_map_or};
    ghost use Rattle.std.specs.Ordering.{int_cmp, nat_cmp};
    ghost use Rattle.crush_map.specs.Map.{Map};
    ghost use Rattle.crush_writing.specs.Canonical as spec;

    ghost Value = { Map };

    ghost view = { λ a. record { types = a.types.now; devices = a.devices.now; buckets = a.buckets.now; rules = a.rules.now; tunables = a.tunables } };

    ghost invariant = { λ a. ((id : ℕ) → option_map_or (λ name. name.now) (get nat_cmp a.by_device id) [] ≡ spec.device_name a.devices.now id) × ((id : ℤ) → option_map_or (λ name. name.now) (get int_cmp a.by_bucket id) [] ≡ spec.bucket_name a.buckets.now id) };
}

impl<'a> NamesById<'a> {
    /// Reads the parts of a map, and makes the tables of its names.
    pub(crate) fn new(alloc: Global, map: &'a CrushMap) -> Result<Self, AllocError>
        ensures same { IfOk result (λ names. names ≡ map.now) }
        ensures valid { IsMap map.now }
    {
        let (devices, buckets) = (map.devices(), map.buckets());
        Ok(NamesById {
            types: map.types(),
            devices,
            buckets,
            rules: map.rules(),
            tunables: map.tunables(),
            by_device: device_names(alloc, devices)?,
            by_bucket: bucket_names(alloc, buckets)?,
        })
    }

    /// Returns the name of the type with a number, or the empty text.
    pub(crate) fn of_type(&self, number: u32) -> &'a str
        ensures { result.now ≡ spec.type_name self.now.types number }
    {
        type_name(self.types, number)
    }

    /// Returns the name of the device or bucket with an id, or the empty text.
    pub(crate) fn of_item(&self, id: ItemId) -> &'a str
        ensures { result.now ≡ spec.item_name self.now id.0 }
    {
        let found = if id.0 < 0 {
            self.by_bucket.get(&id.0)
        } else {
            self.by_device.get(&id.0.unsigned_abs())
        };
        match found {
            Some(name) => *name,
            None => "",
        }
    }
}

//! Devices and buckets in order of declaration, with an index by which a name is looked up.

ghost use Rattle.std.specs.Prelude.{◌≡◌, ◌≤◌, ◌++◌, ◌∷◌, [], ℕ, List, OnErr, OnOk, find, option_map, bytes_eq, length};
ghost use Rattle.std.specs.BTreeMap.{get_by_text};
ghost use Rattle.std.specs.Option.{option_map_or};
ghost use Rattle.crush_map.specs.declared.limits.TheConstants.{ITEM_LIMIT, TOTAL_WEIGHT_LIMIT};
ghost use Rattle.crush_map.specs.crush_types.specs.Weights.{total_weight};
ghost use Rattle.crush_text.specs.Judging.{of_bucket, of_device, undeclared_number};
ghost use Rattle.crush_text.specs.Private.Tables.{first_value};

use crush_map::limits::NUMBER_LIMIT;
use crush_map::{Bucket, Device, ItemId, TypeName, Weight, total_weight};
use std::alloc::{AllocError, Global};
use std::collections::BTreeMap;
use std::marker::Model;

/// The number of a name that isn't declared: no type has this number, and no item has this id.
pub(crate) const UNDECLARED: u32 = NUMBER_LIMIT + 1;

/// Finds the number of the type with a name, or `UNDECLARED`. A map has few types (`TYPE_LIMIT`),
/// so they are looked through in order.
pub(crate) fn type_number(types: &[TypeName], name: &str) -> u32
    ensures { result ≡ option_map_or (λ t. t.number) (find (λ t. bytes_eq t.name name.now) types.now) undeclared_number }
{
    for declared in types {
        if declared.name.as_str() == name {
            return declared.number;
        }
    }
    UNDECLARED
}

/// Adds the item of a name, unless the name has one.
///
/// `Err(AllocError)`: an allocation failed; nothing is changed.
fn add_first(
    alloc: Global,
    index: &mut BTreeMap<String, (ItemId, Weight)>,
    name: &str,
    item: (ItemId, Weight),
) -> Result<(), AllocError>
    ensures ok { OnOk result ((key : List ℕ) → get_by_text index.new key ≡ first_value (get_by_text index.old) name.now item key) }
    ensures err { OnErr result ((key : List ℕ) → get_by_text index.new key ≡ get_by_text index.old key) }
{
    let key = String::from_str(alloc, name)?;
    index.entry(key)?.or_insert(item);
    Ok(())
}

/// Returns a device as an item: its id, and the weight 1.0.
fn device_item(declared: &Device) -> (ItemId, Weight)
    requires { declared.now.id ≤ NUMBER_LIMIT }
    ensures { result ≡ of_device declared.now }
{
    (ItemId(declared.id as i32), Weight(65_536))
}

/// Devices in the order in which they were declared.
#[derive(Drop)]
pub(crate) struct DeviceTable {
    order: Vec<Device>,
    index: BTreeMap<String, (ItemId, Weight)>,
}

impl Model for DeviceTable {
    ghost use Rattle.std.specs.Prelude.{List, ℕ, ◌≡◌, find, option_map, bytes_eq};
    ghost use Rattle.std.specs.BTreeMap.{get_by_text};
    ghost use Rattle.crush_map.specs.declared.draft.Device.{Device};
    ghost use Rattle.crush_text.specs.Judging.{of_device};

    ghost Value = { List Device };

    ghost view = { λ a. a.order.items };

    ghost invariant = { λ a. (name : List ℕ) → get_by_text a.index name ≡ option_map of_device (find (λ d. bytes_eq d.name name) a.order.items) };
}

impl DeviceTable {
    /// Returns the empty table.
    pub(crate) fn new(alloc: Global) -> Self
        ensures { result ≡ [] }
    {
        DeviceTable {
            order: Vec::new(alloc),
            index: BTreeMap::new(alloc),
        }
    }

    /// Finds the id of the device with a name, and the weight 1.0. `None`: no device has the name.
    pub(crate) fn item(&self, name: &str) -> Option<(ItemId, Weight)>
        ensures { result ≡ option_map of_device (find (λ d. bytes_eq d.name name.now) self.now) }
    {
        self.index.get(name).copied()
    }

    /// Adds a device at the end.
    ///
    /// `Err(AllocError)`: an allocation failed; nothing is changed.
    pub(crate) fn add(&mut self, alloc: Global, declared: Device) -> Result<(), AllocError>
        requires { declared.id ≤ NUMBER_LIMIT }
        ensures ok { OnOk result (self.new ≡ self.old ++ declared ∷ []) }
        ensures err { OnErr result (self.new ≡ self.old) }
    {
        let item = device_item(&declared);
        self.order.reserve(1)?;
        add_first(alloc, &mut self.index, declared.name.as_str(), item)?;
        self.order.push_reserved(declared);
        Ok(())
    }

    /// Returns the devices. Allocates nothing.
    pub(crate) fn into_vec(self) -> Vec<Device>
        ensures { result.items ≡ self }
    {
        let DeviceTable { order, .. } = self;
        order
    }
}

/// Returns a bucket as an item: its id, and the sum of the weights of its items.
fn bucket_item(declared: &Bucket) -> (ItemId, Weight)
    requires few { length declared.now.items ≤ ITEM_LIMIT }
    requires light { total_weight declared.now.items ≤ TOTAL_WEIGHT_LIMIT }
    ensures { result ≡ of_bucket declared.now }
{
    (
        declared.id,
        Weight(total_weight(declared.items.as_slice()) as u32),
    )
}

/// Buckets in the order in which they were declared.
#[derive(Drop)]
pub(crate) struct BucketTable {
    order: Vec<Bucket>,
    index: BTreeMap<String, (ItemId, Weight)>,
}

impl Model for BucketTable {
    ghost use Rattle.std.specs.Prelude.{List, ℕ, ◌≡◌, find, option_map, bytes_eq};
    ghost use Rattle.std.specs.BTreeMap.{get_by_text};
    ghost use Rattle.crush_map.specs.declared.draft.Bucket.{Bucket};
    ghost use Rattle.crush_text.specs.Judging.{of_bucket};

    ghost Value = { List Bucket };

    ghost view = { λ a. a.order.items };

    ghost invariant = { λ a. (name : List ℕ) → get_by_text a.index name ≡ option_map of_bucket (find (λ b. bytes_eq b.name name) a.order.items) };
}

impl BucketTable {
    /// Returns the empty table.
    pub(crate) fn new(alloc: Global) -> Self
        ensures { result ≡ [] }
    {
        BucketTable {
            order: Vec::new(alloc),
            index: BTreeMap::new(alloc),
        }
    }

    /// Finds the id of the bucket with a name, and the sum of the weights of its items. `None`: no
    /// bucket has the name.
    pub(crate) fn item(&self, name: &str) -> Option<(ItemId, Weight)>
        ensures { result ≡ option_map of_bucket (find (λ b. bytes_eq b.name name.now) self.now) }
    {
        self.index.get(name).copied()
    }

    /// Adds a bucket at the end.
    ///
    /// `Err(AllocError)`: an allocation failed; nothing is changed.
    pub(crate) fn add(&mut self, alloc: Global, declared: Bucket) -> Result<(), AllocError>
        requires few { length declared.items ≤ ITEM_LIMIT }
        requires light { total_weight declared.items ≤ TOTAL_WEIGHT_LIMIT }
        ensures ok { OnOk result (self.new ≡ self.old ++ declared ∷ []) }
        ensures err { OnErr result (self.new ≡ self.old) }
    {
        let item = bucket_item(&declared);
        self.order.reserve(1)?;
        add_first(alloc, &mut self.index, declared.name.as_str(), item)?;
        self.order.push_reserved(declared);
        Ok(())
    }

    /// Returns the buckets. Allocates nothing.
    pub(crate) fn into_vec(self) -> Vec<Bucket>
        ensures { result.items ≡ self }
    {
        let BucketTable { order, .. } = self;
        order
    }
}

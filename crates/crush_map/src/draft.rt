//! What a map is declared from, before it is checked.
//!
//! Source: Ceph's CRUSH map manual. Each number has a type that can hold values out of its range,
//! so that a draft can be refused for them. The limits are in `limits`.

use crush_types::{ItemId, Kind, Sequence, Text, Weight};

/// A type of buckets; type 0 is that of devices.
#[derive(Drop)]
pub struct TypeName {
    /// 0..`NUMBER_LIMIT` in a map.
    pub number: u32,
    pub name: Text,
}

/// A device.
#[derive(Drop)]
pub struct Device {
    /// 0..`NUMBER_LIMIT` in a map.
    pub id: u32,
    pub name: Text,
}

/// Items and their weights, in order.
pub type Items = Sequence<(ItemId, Weight)>;

/// A bucket.
#[derive(Drop)]
pub struct Bucket {
    /// -1 down to -1 - `NUMBER_LIMIT` in a map.
    pub id: ItemId,
    pub name: Text,
    /// The number of its type.
    pub kind_of: u32,
    /// The algorithm by which it picks an item.
    pub alg: Kind,
    pub items: Items,
}

/// A step of a rule.
#[derive(Clone, Copy, Debug, PartialEq, Eq)]
pub enum Step {
    /// The working list becomes this item alone.
    Take(ItemId),
    /// Sets the tries of the choose steps that follow, 0..`TRIES_LIMIT` in a map; 0 has no effect.
    SetChooseTries(u32),
    /// Sets the tries for a leaf in the chooseleaf steps that follow, 0..`TRIES_LIMIT` in a map; 0
    /// has no effect.
    SetLeafTries(u32),
    /// Sets `chooseleaf_vary_r` for the steps that follow, 0..`VARY_R_LIMIT` in a map.
    SetVaryR(u32),
    /// Sets `chooseleaf_stable` for the steps that follow, 0..1 in a map.
    SetStable(u32),
    /// Chooses items below each bucket of the working list.
    Choose {
        /// Whether the mode is firstn; else it is indep.
        firstn: bool,
        /// Whether it is a chooseleaf step; else it is a choose step.
        leaf: bool,
        /// How many items; a number of 0 or below is added to the size of the answer. |n| is at
        /// most `COUNT_LIMIT` in a map.
        n: i32,
        /// The number of the type of the items that it chooses.
        wanted: u32,
    },
    /// Appends the working list to the answer, and empties it.
    Emit,
}

/// Steps, in order.
pub type Steps = Sequence<Step>;

/// A rule.
#[derive(Drop)]
pub struct Rule {
    /// 0..`RULE_ID_LIMIT` in a map.
    pub id: u32,
    pub name: Text,
    /// Whether it is for erasure coded pools; else it is for replicated ones.
    pub erasure: bool,
    pub steps: Steps,
}

/// The tunables that choosing reads.
#[derive(Clone, Copy, Debug, PartialEq, Eq)]
pub struct Tunables {
    /// `choose_total_tries`, 0..`TOTAL_TRIES_LIMIT` in a map.
    pub total_tries: u32,
    /// `chooseleaf_descend_once`, 0..1 in a map.
    pub descend_once: u32,
    /// `chooseleaf_vary_r`, 0..`VARY_R_LIMIT` in a map.
    pub vary_r: u32,
    /// `chooseleaf_stable`, 0..1 in a map.
    pub stable: u32,
}

/// A map as it was declared, each list in order of declaration.
#[derive(Drop)]
pub struct MapDraft {
    pub types: Sequence<TypeName>,
    pub devices: Sequence<Device>,
    pub buckets: Sequence<Bucket>,
    pub rules: Sequence<Rule>,
    /// `choose_local_tries`, 0 in a map.
    pub local_tries: u32,
    /// `choose_local_fallback_tries`, 0 in a map.
    pub local_fallback_tries: u32,
    pub tunables: Tunables,
}

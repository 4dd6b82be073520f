//! Pools and placements: the group of an object's name, and the devices of a group. Exceptions of a
//! pool. States of devices, and changes of them.
//!
//! Source: Ceph's `osd/osd_types.cc`, `osd/OSDMap.cc` and `include/rados.h`. The tests are in the
//! crate `pool_tests`.
#![tactic(auto)]

mod changes;
mod content;
mod exceptions;
mod group;
pub mod laws;
pub mod limits;
mod placer;
mod placing;
mod pool;
mod pools;
mod states;
mod text;

pub use changes::{DeviceChange, are_valid_changes};
pub use content::{Content, LONG_TEXT};
pub use exceptions::{Exceptions, Pair, SharedExceptions, are_pairs};
pub use group::{mask_of, stable_mod};
pub use placer::Placer;
pub use placing::{Placement, is_up_slot, place, primary_of, rule_with_id};
pub use pool::{Pool, PoolFault, PoolParts};
pub use states::{DeviceState, DeviceStates, SharedStates, reweights_of};
pub use text::SharedText;

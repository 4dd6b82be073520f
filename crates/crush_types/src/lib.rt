//! Values that many crates share: ids of items, weights and kinds of buckets; and texts, lists and
//! a value for each device, which contracts see without their memory.
//!
//! The tests are in the crate `map_tests`.
#![tactic(auto)]

mod by_device;
pub mod laws;
pub mod limits;
mod list;
mod text;
mod weights;
mod word;

pub use by_device::DeviceVec;
pub use list::Sequence;
pub use text::Text;
pub use weights::{has_equal_weights, total_weight};
pub use word::{ItemId, Kind, Weight};

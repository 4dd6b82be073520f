//! The picks of a bucket of each kind, and the buckets of a CRUSH map, ready to be asked.
//!
//! Sources: the CRUSH paper (Weil et al., SC 2006, section 3.4) and Ceph's `src/crush/mapper.c`.
//! The tests are in the crate `kernel_tests`.
#![tactic(auto)]

mod any;
mod by_weight;
mod descent;
mod eight;
mod index;
pub mod laws;
mod list;
pub mod list_laws;
mod number;
mod of_kind;
mod picker;
mod scratch;
mod soonest;
mod straw2;
pub mod straw2_laws;
mod sums;
mod tables;
mod tree;
mod typed;
mod uniform;
mod uniform_lanes;
mod walks;

pub use any::AnyBucket;
pub use by_weight::{picks_by_weight, without_weights};
pub use crush_hash::Perm;
pub use eight::{is_side_by_side, pick_side_by_side};
pub use number::BucketNo;
pub use of_kind::{ListBucket, Straw2Bucket, TreeBucket, UniformBucket};
pub use picker::Picker;
pub use scratch::{LANES, Scratch};
pub use sums::can_be_asked;
pub use tables::Tables;
pub use typed::TypedBucket;

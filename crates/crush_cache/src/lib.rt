//! One cache of placements for all tenants: by the whole content that a placement depends on, and
//! the group.
//!
//! Its tests are in the crate `cache_tests`.
#![tactic(auto)]

mod cache;
mod entries;
pub mod limits;
mod seen;

pub use cache::PlacementCache;
pub use crush_pool::{Content, SharedExceptions, SharedStates, SharedText};
pub use entries::{Entries, Key};

//! Writing a map as its one canonical text.
//!
//! Source: Ceph's CRUSH map manual, which shows the text that `crushtool -d` writes.
#![tactic(auto)]

mod lookup;
mod write;

pub use write::write_map;

//! What the tests of the service share: imports of maps, calls with their replies, and readers and
//! writers that fail.
#![tactic(auto)]

pub mod imports;
pub mod rows;
pub mod streams;

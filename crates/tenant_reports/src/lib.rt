//! Requests for reports on a pool, picks of one bucket, and changes of states of devices as CSV: a
//! file for each.
//!
//! The tests are in the crate `service_tests`.
#![tactic(auto)]

pub mod device_csv;
pub mod impact;
pub mod laws;
pub mod limits;
pub mod moves;
pub mod picks;
mod rows;
pub mod usage;

pub use picks::{AskedBucket, PickRequest};

//! The service of all tenants, over any store: requests, runs and sessions; the store in memory;
//! and what scripts and connections share of writing replies.
#![tactic(auto)]

pub mod laws;
mod memory_store;
mod service;
mod session;
mod writing;

pub use memory_store::MemoryStore;
pub use service::Service;
pub use session::SessionEnd;
pub use writing::{shown_body, write_whole};

//! One tenant: requests, replies, its state, and the contract of the store that holds states.
#![tactic(auto)]

mod cached;
mod commands;
mod creation;
mod decision;
pub mod laws;
pub mod limits;
mod queries;
mod request;
mod route;
mod router;
mod store;
mod tenants;

pub use cached::{CachedAnswer, Question, answer_cached};
pub use commands::{Command, Order, apply, apply_to};
pub use creation::create;
pub use decision::{Decision, Effect, decide};
pub use queries::{Query, answer};
pub use request::{Action, Request, read_request};
pub use route::{Methods, Route};
pub use router::{Routes, Target};
pub use store::{TenantStore, store_fault};
pub use tenant_messages::{Bytes, Call, CallParts, Problem, Refusal, Reply, StoreFault, refused};
pub use tenant_state::{Change, Inventory, Product, Receipt, TenantState};

//! A service of the tenants in the tables of a connection: opened over it, and closed.
#![tactic(auto)]

mod service;

pub use service::{TableService, close_service, open_service};

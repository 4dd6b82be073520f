//! The parts of a tenant that requests name: a file for each, with the form of its bodies, its own
//! checks, and its answer.
#![tactic(auto)]

mod accepted;
pub mod devices;
pub mod exceptions;
pub mod groups;
pub mod laws;
pub mod limits;
pub mod maps;
pub mod pools;
pub mod rule_tests;

pub use accepted::Acceptance;
pub use groups::ObjectName;
pub use rule_tests::RuleTest;

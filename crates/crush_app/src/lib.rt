//! Scripts of requests to the service of all tenants, over any store and in memory, and checks of
//! map texts.
#![tactic(auto)]

mod check;
mod from_nothing;
mod input;
pub mod limits;
mod line;
mod on_store;
mod play;
mod script;
mod wire;

pub use check::{CheckEnd, check_run};
pub use from_nothing::script_in_memory;
pub use on_store::script_on_store;
pub use play::{ScriptEnd, script_run};

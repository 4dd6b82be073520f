//! The program's arguments: the command that they name, its file and port, and the number of
//! placements that it keeps.
#![tactic(auto)]

mod command;
mod invocation;

pub use command::program;
pub use invocation::{Invocation, read_arguments};

//! Scripts that are played over database files.
#![tactic(auto)]

mod on_file;
mod on_files;

pub use on_file::script_on_file;
pub use on_files::script_on_files;

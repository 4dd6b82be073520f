//! Laws of the definitions: of walks over a map, of sessions, histories and stops, of the bytes
//! that tenants take, of clients that are served and of files that are given back. No crate of the
//! program depends on them: they say again, in another form, what definitions say, so a definition
//! that says less or more than it should breaks one.
#![tactic(auto)]

pub mod clients;
pub mod files;
pub mod sessions;
pub mod sizes;
pub mod stops;
mod trees;
pub mod updates;
pub mod written;

pub use trees::{items_of_a_map_have_one_tree, walks_go_down_the_tree};

//! Map texts: reading a text as a map, or its first fault by line and code; the laws of reading and
//! of writing (`crush_writing`).
//!
//! Source: Ceph's CRUSH map manual, which shows the text that `crushtool -d` writes.
#![tactic(auto)]

mod fit;
mod judge;
mod law;
pub mod limits;
mod places;
mod read;
mod tables;

pub use crush_grammar::{TextCode, TextFault, code_text};
pub use crush_writing::write_map;
pub use law::{
    canonical_texts_are_ascii, canonical_texts_are_read, texts_are_read_as_they_say,
    texts_have_a_map_or_one_fault, texts_of_maps_have_no_fault, texts_say_one_map,
    written_maps_are_read_back,
};
pub use read::{read_map, read_stored};

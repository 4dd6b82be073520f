//! CRUSH maps: what a map is declared from, which drafts are maps, and weights as text.
//!
//! Its tests are in the crate `map_tests`.
#![tactic(auto)]

mod decimal;
mod draft;
mod fault;
mod form;
mod ids;
mod judge;
mod known;
mod law;
pub mod limits;
mod map;
mod mark;
mod names;
mod numbers;

pub use crush_types::{
    DeviceVec, ItemId, Kind, Sequence, Text, Weight, has_equal_weights, total_weight,
};
pub use decimal::{
    are_digits, weight_comes_back, weight_from_text, weight_text, weight_texts_are_read,
};
pub use draft::{Bucket, Device, Items, MapDraft, Rule, Step, Steps, Tunables, TypeName};
pub use fault::{Element, FaultCode, MapFault};
pub use form::{all_are_name_bytes, is_name, is_name_byte, is_reserved};
pub use known::{SymbolTable, are_in_range};
pub use law::{
    buckets_are_sound, drafts_declare_maps, first_fault_is_first, numbers_and_names_are_once,
    numbers_are_sound, rules_are_sound,
};
pub use map::CrushMap;
pub use mark::straw2_mark;

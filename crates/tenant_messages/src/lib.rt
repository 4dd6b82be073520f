//! Calls and replies: the parts of a call, the reading of JSON bodies, replies as a status and
//! compact JSON, and why a store of tenants did not answer.
#![tactic(auto)]

mod call;
mod json;
pub mod limits;
mod pieces;
mod reply;
mod slots;
mod store_fault;

pub use call::{Bytes, Call, CallParts};
pub use json::{
    boolean, has_keys, integer, natural, optional_boolean, optional_natural, read_value,
    request_number, text, text_of,
};
pub use pieces::{done, push_number, push_slot, push_slots};
pub use reply::{
    Problem, Refusal, Reply, SuccessStatus, answered, created, error, no_memory, refused, repeated,
    success, written,
};
pub use slots::{ids_json, slot_json, slots_json};
pub use store_fault::StoreFault;

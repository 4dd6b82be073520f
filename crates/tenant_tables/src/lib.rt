//! The tables of tenants in SQLite as a value: opened, read and written, each change whole or not
//! at all; and tenants as their rows.
#![tactic(auto)]

mod change;
pub mod commit;
mod inventory;
mod judge;
pub mod laws;
mod open;
mod parts;
mod pools;
mod read;
mod reopen;
mod state;
pub mod tables;
mod write;

pub use change::write_change;
pub use inventory::inventory_from;
pub use judge::judge_receipts;
pub use parts::{receipt_from, states_from, versions_from};
pub use pools::pools_from;
pub use read::read_inventory;
pub use state::{from_rows, receipts_from};

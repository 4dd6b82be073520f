//! Reports on a pool: how much of it lies on each device, which groups' up lists differ on another
//! map, and which groups a device can touch. Reports as CSV, and changes of devices from CSV.
//!
//! The tests are in the crates `report_tests` and `csv_tests`.
#![tactic(auto)]

mod answers;
mod counts;
mod csv_laws;
mod csv_read;
mod csv_write;
pub mod laws;
mod moved_from;
mod moved_groups;
mod reports;
mod rows;
mod touched_groups;
mod touches;
mod up_lists;
mod up_runs;
mod usage_counts;
pub mod usage_laws;

pub use crush_pool::{DeviceChange, are_valid_changes};
pub use csv_laws::{device_csvs_are_of_the_form, reports_are_read_back};
pub use csv_read::{CsvFault, read_device_csv};
pub use csv_write::{moves_csv, usage_csv};
pub use moved_from::moves_from;
pub use moved_groups::{gained_in, move_between, moves_with};
pub use reports::{impact, moves, usage};
pub use rows::{MoveRow, UsageRow};
pub use touched_groups::impact_with;
pub use touches::{TOUCH_LIMIT, Touch, Touches};
pub use up_lists::{SLOT_LIMIT, UpLists};
pub use up_runs::UpRun;
pub use usage_counts::usage_with;

//! Tests of reports as CSV, and of changes of devices from CSV, in `crush_report`.
#![tactic(auto)]

#[cfg(test)]
mod csvs;

//! Tests of `tenant_core`, `tenant_service` and `crush_app`: runs and scripts, reads and writes
//! that fail, a store whose data is damaged in part, one that fails for good, and decisions that no
//! request shows. They are a crate of their own, so that these crates are proved once.
#![tactic(auto)]

#[cfg(test)]
mod damaged;
#[cfg(test)]
mod faults;
#[cfg(test)]
mod fixed;
#[cfg(test)]
mod latched;
#[cfg(test)]
mod requests;
#[cfg(test)]
mod same;
#[cfg(test)]
mod scripts;

//! Tests of `tenant_cache`, over a store in memory whose loads are counted and one of whose calls
//! may meet a fault. They are a crate of their own, since they are over `tenant_service` too.
#![tactic(auto)]

#[cfg(test)]
mod asking;
#[cfg(test)]
mod bounds;
#[cfg(test)]
mod counted;
#[cfg(test)]
mod faults;
#[cfg(test)]
mod history;
#[cfg(test)]
mod loads;
#[cfg(test)]
mod many;
#[cfg(test)]
mod moved;
#[cfg(test)]
mod placed;
#[cfg(test)]
mod touched;
#[cfg(test)]
mod watched;

//! Tests of `crush_map`, and the builder of drafts, which `kernel_tests`, `choosing_tests` and
//! `text_tests` use too. They stand apart, so that `crush_map` is proved once.
#![tactic(auto)]

#[cfg(test)]
mod by_device;
pub mod drafts;
#[cfg(test)]
mod edges;
#[cfg(test)]
mod faults;
#[cfg(test)]
mod full;
#[cfg(test)]
mod same;
#[cfg(test)]
mod weights;

//! Tests of `crush_pool`, and pools on maps that are written as texts, which `report_tests` uses
//! too. They stand apart, so that `crush_pool` is proved once.
#![tactic(auto)]

#[cfg(test)]
mod exceptions;
#[cfg(test)]
mod groups;
pub mod maps;
#[cfg(test)]
mod placements;
pub mod placing;
pub mod pools;
#[cfg(test)]
mod same;
#[cfg(test)]
mod seeds;
pub mod states;
#[cfg(test)]
mod up;

//! Tests of `crush_cache`, on maps that are written as texts. They stand apart, so that the crate
//! itself is proved once.
#![tactic(auto)]

#[cfg(test)]
mod asking;
#[cfg(test)]
mod contents;
#[cfg(test)]
mod many;
#[cfg(test)]
mod same;
#[cfg(test)]
mod sharing;

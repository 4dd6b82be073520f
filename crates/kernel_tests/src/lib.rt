//! Tests of the lanes and permutations of `crush_hash`, and of `crush_bucket`. They stand apart, so
//! that the two crates are proved once.
#![tactic(auto)]

#[cfg(test)]
mod ahead;
#[cfg(test)]
mod buckets;
#[cfg(test)]
mod lanes;
#[cfg(test)]
mod plain;
#[cfg(test)]
mod same;
#[cfg(test)]
mod sparse;

#[cfg(test)]
use map_tests::drafts;

//! Tests of `crush_choose`, on maps of drafts. They stand apart, so that the crate is proved once.
#![tactic(auto)]

#[cfg(test)]
mod examples;
#[cfg(test)]
mod giving_up;
#[cfg(test)]
mod limits;
#[cfg(test)]
mod rules;
#[cfg(test)]
mod same;
#[cfg(test)]
mod stability;

#[cfg(test)]
use map_tests::drafts;

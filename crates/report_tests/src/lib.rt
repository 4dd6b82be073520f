//! Tests of `crush_report`, on maps that are written as texts. They stand apart, so that the crate
//! itself is proved once.
#![tactic(auto)]

#[cfg(test)]
mod cases;
#[cfg(test)]
mod kept;
#[cfg(test)]
mod places;
#[cfg(test)]
mod plain;
#[cfg(test)]
mod reports;
#[cfg(test)]
mod rules;
#[cfg(test)]
mod same;

//! Tests of `crush_grammar` and `crush_text`, and texts of maps, which `pool_tests` uses too. They
//! stand apart, so that the crates themselves are proved once.
#![tactic(auto)]

#[cfg(test)]
mod form;
#[cfg(test)]
mod jewel;
#[cfg(test)]
mod legacy;
#[cfg(test)]
mod lines;
#[cfg(test)]
mod mark;
#[cfg(test)]
mod read;
#[cfg(test)]
mod same;
pub mod texts;
#[cfg(test)]
mod words;
#[cfg(test)]
mod write;

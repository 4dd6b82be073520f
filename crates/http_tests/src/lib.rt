//! Tests of `crush_http`: the messages of worked streams and their replies, however the streams are
//! cut, and reads and writes that fail. They are in a crate of their own, so that `crush_http` is
//! proved once.
#![tactic(auto)]

#[cfg(test)]
mod connections;
#[cfg(test)]
mod faults;
#[cfg(test)]
mod heads;
#[cfg(test)]
mod held;
#[cfg(test)]
mod same;
#[cfg(test)]
mod streams;

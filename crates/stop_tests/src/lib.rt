//! Tests of sessions over two disks in memory, a database file and its log. One of them fails from
//! some call on. After each session both lose what wasn't synced, as in a crash.
#![tactic(auto)]

#[cfg(test)]
mod chains;
#[cfg(test)]
mod disks;
#[cfg(test)]
mod session;
#[cfg(test)]
mod stops;

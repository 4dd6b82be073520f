//! Calls of the library, as its callers make them: each call of its twelve crates, at the crate and
//! by the name by which a caller knows it, on small cases whose answers are known from elsewhere.
#![tactic(auto)]

#[cfg(test)]
mod buckets;
#[cfg(test)]
mod front;
#[cfg(test)]
mod maps;
#[cfg(test)]
mod pools;
#[cfg(test)]
mod same;
#[cfg(test)]
mod stores;
#[cfg(test)]
mod tenants;

//! Tests of sessions of `tenant_service`, stopped at each call of the store in turn. They are a
//! crate of their own, so that `tenant_service` is proved once.
#![tactic(auto)]

#[cfg(test)]
mod sessions;
#[cfg(test)]
mod stopping;

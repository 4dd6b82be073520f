//! A store of tenants' states that keeps ready what tenants have in another store, up to a number
//! of bytes.
#![tactic(auto)]

mod bound;
mod kept;
mod last;
mod placing;
mod ready;
mod ready_store;
mod reports;

pub use bound::{Bound, ByteBound};
pub use kept::KeptTenants;
pub use ready::ReadyTenant;
pub use ready_store::CachedStore;

//! A store of tenants' states in the tables of a database, and a store whose files are watched.
#![tactic(auto)]

mod judged;
pub mod laws;
mod reading;
mod store;
mod watch;
mod watched_store;
mod writing;

pub use store::Store;
pub use table_schema::rows::{PoolRow, ReceiptRow, VersionRow};
pub use table_schema::values::{ExceptionRow, StateRow};
pub use tenant_core::{StoreFault, TenantStore};
pub use tenant_tables::from_rows;
pub use watch::Watch;
pub use watched_store::WatchedStore;

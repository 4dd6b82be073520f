//! Database files of tenants: opening and closing, whether they are where they were, and stores
//! over them that keep in memory what tenants have.
#![tactic(auto)]

mod closing;
mod fault;
pub mod laws;
mod log;
mod opening;
mod ready;
mod refused;
mod watch;

pub use closing::{StoreEnd, close_store};
pub use fault::FileFault;
pub use opening::open_watched;
pub use ready::{READY_BYTES, ReadyStore, close_ready, ready_over};
pub use refused::FileRefusal;
pub use watch::FileWatch;

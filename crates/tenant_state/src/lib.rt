//! The state of a tenant: the versions of its map, the states of devices, the pools with their
//! exceptions, the receipts of its accepted changes, and these changes.
#![tactic(auto)]

mod devices;
pub mod laws;
pub mod limits;
mod pool;
mod pools;
mod receipts;
pub mod size;
mod state;
mod version;
mod versions;

pub use devices::Devices;
pub use pool::TenantPool;
pub use pools::Pools;
pub use receipts::{Receipt, Receipts, is_repeat};
pub use state::{Change, Inventory, Product, TenantState};
pub use version::Version;
pub use versions::Versions;

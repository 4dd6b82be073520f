//! Why a read did not answer.

ghost use Rattle.std.specs.Prelude.{◌≡◌, ◌≢◌, ◌↔◌};

use crate::refuse::Sight;
use std::alloc::AllocError;
use tenant_messages::StoreFault;

/// Why a read did not answer.
#[derive(Clone, Copy, Debug, PartialEq, Eq)]
pub enum ReadFault {
    /// An allocation failed. The connection is as before.
    NoMemory,
    /// An allocation failed, and one more in the look at the connection: it is as before, or the
    /// disk had a fault.
    Unseen,
    /// A row is none that this service writes.
    Damaged,
    /// The disk had a fault.
    Failed,
}

impl From<AllocError> for ReadFault {
    ghost use Rattle.std.specs.Prelude.{◌≡◌};
    ghost use Rattle.table_schema.specs.declared.fault.ReadFault.TheVariants.{NoMemory};

    ghost from_gives = { λ _ fault. fault ≡ NoMemory };

    fn from(_error: AllocError) -> ReadFault {
        ReadFault::NoMemory
    }
}

/// Returns why a query did not answer, after which a look at the connection found this.
pub fn read_fault(found: Sight) -> ReadFault
    ensures memory { result ≡ ReadFault.NoMemory ↔ found ≡ Sight.Open StoreFault.NoMemory }
    ensures unseen { result ≡ ReadFault.Unseen ↔ found ≡ Sight.Unseen }
    ensures rows { result ≢ ReadFault.Damaged }
{
    match found {
        Sight::Open(StoreFault::NoMemory) => ReadFault::NoMemory,
        Sight::Open(_) | Sight::Lost => ReadFault::Failed,
        Sight::Unseen => ReadFault::Unseen,
    }
}

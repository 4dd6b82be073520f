//! Why a database file can't be used.

ghost use Rattle.std.specs.Prelude.{◌≡◌, ◌↔◌};

use sqlite::{Error, ErrorCode};
use tenant_core::StoreFault;

/// Why a file wasn't opened, used to the end, or closed.
#[derive(Clone, Copy, Debug, PartialEq, Eq)]
pub enum FileFault {
    /// An allocation failed outside a request.
    NoMemory,
    /// The file can't be opened, isn't a database of this service, or failed for good.
    Store,
}

/// Returns the fault of a file that is reported for `error`, an error of the database.
pub fn fault_of(error: Error) -> FileFault
    ensures { result ≡ FileFault.NoMemory ↔ error ≡ Error.SqliteFailure ErrorCode.OutOfMemory }
{
    match error {
        Error::SqliteFailure(ErrorCode::OutOfMemory) => FileFault::NoMemory,
        _ => FileFault::Store,
    }
}

impl From<StoreFault> for FileFault {
    ghost use Rattle.std.specs.Prelude.{◌≡◌, ◌↔◌};
    ghost use Rattle.tenant_core.specs.tenant_messages.specs.declared.StoreFault.TheVariants as below;
    ghost use Rattle.tenant_files.specs.declared.fault.FileFault.TheVariants.{NoMemory};

    ghost from_gives = { λ fault given. given ≡ NoMemory ↔ fault ≡ below.NoMemory };

    fn from(fault: StoreFault) -> FileFault {
        match fault {
            StoreFault::NoMemory => FileFault::NoMemory,
            _ => FileFault::Store,
        }
    }
}

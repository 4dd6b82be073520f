//! Closing a database file.

ghost use Rattle.std.specs.Prelude.{◌≡◌, Err, false, IfErr, IfSome};
ghost use Rattle.sqlite.specs.Files.{file_state, over_files};
ghost use Rattle.sqlite.specs.State.{HasCleanDisk};
ghost use Rattle.sqlite_wal.specs.Recovery.{Image};
ghost use Rattle.tenant_store.specs.tenant_tables.specs.Rows.{StandsFor};
ghost use Rattle.tenant_store.specs.Shown.{IsHonest};
ghost use Rattle.tenant_files.specs.Closed.{GivesBack};
ghost use Rattle.tenant_files.specs.Closing.{FailsToCopy};
ghost use Rattle.tenant_files.specs.Opened.{IsFound};
ghost use Rattle.tenant_files.specs.Refused.{IsRefused};

use crate::fault::{FileFault, fault_of};
use crate::refused::FileRefusal;
use sqlite::FileStore;
use sqlite_disk::{Disk, Files};
use tenant_store::Store;

/// What a store over a database file gave back: the two files, and whether the log was copied into
/// the database file.
#[derive(Drop)]
pub struct StoreEnd<D: Disk> {
    /// Whether the log was copied. `Err`: it wasn't, and what was committed is in the file or in
    /// its log.
    pub copied: Result<(), FileFault>,
    pub files: Files<D>,
}

/// Copies the log of a store's file into the database file, and gives both files back.
///
/// `copied` is `Err(FileFault::Store)` where the file failed, and `Err(FileFault::NoMemory)` where
/// an allocation failed.
pub fn close_store<D: Disk + Drop>(store: Store<FileStore<D>>) -> StoreEnd<D>
    ensures given { GivesBack store.0 result.copied result.files }
    ensures cause { IfErr result.copied (FailsToCopy store.0 result.files) }
    ensures honest { HasCleanDisk (file_state store.0) → IsHonest over_files store }
{
    let conn = store.close();
    match conn.close_files() {
        Ok(files) => StoreEnd {
            copied: Ok(()),
            files,
        },
        Err((error, left)) => StoreEnd {
            copied: Err(fault_of(error)),
            files: left.close(),
        },
    }
}

/// Gives back the files of a store. Nothing is copied.
pub fn give_up<D: Disk + Drop>(store: Store<FileStore<D>>) -> StoreEnd<D>
    ensures given { GivesBack store.0 result.copied result.files }
    ensures failed { result.copied ≡ Err FileFault.Store }
    ensures honest { HasCleanDisk (file_state store.0) → IsHonest over_files store }
{
    let conn = store.close();
    StoreEnd {
        copied: Err(FileFault::Store),
        files: conn.into_store().close(),
    }
}

/// Gives back the files of a store that was opened and isn't used, because of `fault`. Nothing is
/// copied. What an opening found in the files (`image`) is there, also after a crash.
pub fn give_back<D: Disk + Drop>(store: Store<FileStore<D>>, fault: FileFault) -> FileRefusal<D>
    requires works { store.1 ≡ false }
    ensures { (image : Image) → IsFound D.Disk (HasCleanDisk (file_state store.0)) image (StandsFor (file_state store.0).now.trees) → IfSome result.files (IsRefused D.Disk image) }
{
    let closed = give_up(store);
    FileRefusal {
        fault,
        files: Some(closed.files),
    }
}

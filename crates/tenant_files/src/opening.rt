//! Opening a database file for the tenants in its tables.

ghost use Rattle.std.specs.Prelude.{◌≡◌, false, Some, IfOk, IfErr, IfSome};
ghost use Rattle.sqlite.specs.Closing.{files_left};
ghost use Rattle.sqlite.specs.Files.{file_state};
ghost use Rattle.sqlite.specs.State.{HasCleanDisk};
ghost use Rattle.sqlite.specs.declared.file.Leftover.{Leftover as Left};
ghost use Rattle.sqlite_wal.specs.Files.{image_at};
ghost use Rattle.tenant_store.specs.tenant_tables.specs.Rows.{StandsFor};
ghost use Rattle.tenant_files.specs.Opened.{IsFound};
ghost use Rattle.tenant_files.specs.Refused.{IsRefused};

use crate::closing::give_back;
use crate::fault::{FileFault, fault_of};
use crate::log::{LogBefore, log_before};
use crate::refused::FileRefusal;
use crate::watch::FileWatch;
use sqlite::{Connection, Error, ErrorCode, FileStore, Leftover};
use sqlite_disk::{Disk, Start};
use sqlite_std_file::FileFrom;
use std::rt::HostRuntime;
use tenant_core::StoreFault;
use tenant_store::Store;

/// Returns whether `error` says that a file is refused for what it holds.
fn is_refusal(error: Error) -> bool {
    matches!(
        error,
        Error::SqliteFailure(ErrorCode::NotADatabase | ErrorCode::DatabaseCorrupt)
    )
}

/// Makes the log as it was before the opening, where the files are refused for what they hold
/// (`is_refused`) and are still locked. It does so by the log's path, of which contracts know
/// nothing.
fn restore_log(rt: &HostRuntime, before: &Option<LogBefore>, is_refused: bool) {
    if let Some(log) = before {
        if is_refused {
            // where the log can't be cut, what was added to it holds nothing
            let _left = log.restore(rt);
        }
    }
}

/// Gives back what an opening that the database refused left of the files.
fn unread<D: Disk + Drop>(
    rt: &HostRuntime,
    before: &Option<LogBefore>,
    error: Error,
    left: Option<Leftover<D>>,
) -> FileRefusal<D>
    ensures { IfSome result.files (λ files. (it : Left D D.Disk) × (left ≡ Some it) × (files_left it ≡ (files.log, files.db))) }
{
    let fault = fault_of(error);
    let Some(left) = left else {
        return FileRefusal { fault, files: None };
    };
    restore_log(rt, before, is_refusal(error));
    FileRefusal {
        fault,
        files: Some(left.into_files()),
    }
}

/// Opens the tables in the file at `path`. A file that is missing or empty becomes a new database,
/// and tables of schema 1 are replaced by those of schema 2, for the same states. `S` stands for
/// what the file and its log hold; no clause ties them to the path.
///
/// `Err`, with `FileFault::Store`: the file can't be opened or written, or isn't a database with
/// the tables of this service; in the last case it is unchanged. With `FileFault::NoMemory`: an
/// allocation failed; the tables may have been made, or those of schema 1 replaced, whole, for the
/// same states.
fn open_store<S: Start>(
    rt: &HostRuntime,
    path: &str,
    start: S,
) -> Result<Store<FileStore<FileFrom<S>>>, FileRefusal<FileFrom<S>>>
    ensures live { IfOk result (λ store. store.1 ≡ false) }

    // The rows stand for the states that the files held.
    ensures found { IfOk result (λ store. IsFound ⟦<FileFrom<S> as Disk>⟧ (HasCleanDisk (file_state store.0)) (image_at S.Start) (StandsFor (file_state store.0).now.trees)) }

    // Where the files are given back, what they held is there, also after a crash.
    ensures refused { IfErr result (λ e. IfSome e.files (IsRefused ⟦<FileFrom<S> as Disk>⟧ (image_at S.Start))) }
{
    let before = log_before(rt, path);
    let conn = match Connection::open_from(rt, path, false, start) {
        Ok(conn) => conn,
        Err((error, left)) => return Err(unread(rt, &before, error, left)),
    };
    match Store::open(rt.alloc(), conn) {
        Ok(store) => Ok(store),
        Err((fault, store)) => {
            restore_log(rt, &before, fault == StoreFault::Damaged);
            Err(FileRefusal {
                fault: FileFault::from(fault),
                files: Some(store.close()),
            })
        }
    }
}

/// Opens the tables in the file at `path`, as `open_store` does, and makes a watch over the file.
///
/// `Err`: as `open_store` answers it; also, with `FileFault::Store`, where the file was moved or
/// removed meanwhile, and with `FileFault::NoMemory` where an allocation for the watch failed.
pub fn open_watched<'a, S: Start>(
    rt: &'a HostRuntime,
    path: &'a str,
    start: S,
) -> Result<(Store<FileStore<FileFrom<S>>>, FileWatch<'a>), FileRefusal<FileFrom<S>>>
    ensures live { IfOk result (λ r. r.0.1 ≡ false) }

    // The rows stand for the states that the files held.
    ensures found { IfOk result (λ r. IsFound ⟦<FileFrom<S> as Disk>⟧ (HasCleanDisk (file_state r.0.0)) (image_at S.Start) (StandsFor (file_state r.0.0).now.trees)) }

    // Where the files are given back, what they held is there, also after a crash.
    ensures refused { IfErr result (λ e. IfSome e.files (IsRefused ⟦<FileFrom<S> as Disk>⟧ (image_at S.Start))) }
{
    let store = match open_store(rt, path, start) {
        Ok(store) => store,
        Err(refused) => return Err(refused),
    };
    match FileWatch::new(rt, path) {
        Ok(watch) => Ok((store, watch)),
        Err(fault) => Err(give_back(store, fault)),
    }
}

//! Scripts that are played over a database file.

ghost use Rattle.std.specs.Prelude.{◌≡◌, IfOk, IfErr, IfSome, OnErr};
ghost use Rattle.tenant_files.specs.sqlite_wal.specs.Files.{image_at};
ghost use Rattle.tenant_files.specs.Refused.{IsRefused};
ghost use Rattle.crush_files.specs.Ended.{EndsOnFile};

use crate::on_files::script_on_files;
use crush_app::ScriptEnd;
use sqlite_disk::{Disk, Start};
use sqlite_std_file::FileFrom;
use std::alloc::AllocError;
use std::io::{Read, Write};
use std::num::NonZeroUsize;
use std::rt::HostRuntime;
use tenant_files::{FileRefusal, StoreEnd, open_watched};

/// Plays a script on the tenants in the database file at `path`, keeps the placements of
/// `placements` groups, and returns how that ended, with the files that were given back. A file
/// that is missing or empty becomes a new database. The file is opened before the script is read.
///
/// The clauses speak of what the file and its log held (`S`), which no clause ties to the path, and
/// have the premise that the disk returned what was written (`AreClean`).
///
/// `Err`, with `FileFault::Store`: the file can't be opened or written, or it isn't a database with
/// the tables of this service and is unchanged, or it was moved or removed meanwhile. With
/// `FileFault::NoMemory`: an allocation of the opening failed.
pub fn script_on_file<S: Start, R: Read, W: Write>(
    rt: &HostRuntime,
    path: &str,
    start: S,
    placements: NonZeroUsize,
    reader: &mut R,
    writer: &mut W,
) -> Result<(Result<ScriptEnd, AllocError>, StoreEnd<FileFrom<S>>), FileRefusal<FileFrom<S>>>
    // Lines were served from the states that the file held to those that it holds now, also after
    // a crash, and what was written has the headline. Or nothing was served and written, and the
    // file holds the same states, also after a crash.
    ensures ends { IfOk result (λ r. EndsOnFile ⟦<FileFrom<S> as Disk>⟧ (image_at S.Start) r.0 r.1.copied r.1.files (R.remaining reader.old) (R.remaining reader.new) (W.contents writer.old) (W.contents writer.new)) }

    // The file isn't used: nothing was read, and nothing was written.
    ensures unopened { OnErr result ((reader.new ≡ reader.old) × (writer.new ≡ writer.old)) }

    // Where the files are given back, what they held is there, also after a crash.
    ensures refused { IfErr result (λ e. IfSome e.files (IsRefused ⟦<FileFrom<S> as Disk>⟧ (image_at S.Start))) }
{
    let (store, watch) = match open_watched(rt, path, start) {
        Ok(opened) => opened,
        Err(refused) => return Err(refused),
    };
    Ok(script_on_files(rt.alloc(), store, watch, placements, reader, writer))
}

//! Scripts that are played over an opened database file, which is then closed.

ghost use Rattle.std.specs.Prelude.{◌≡◌, false, Err, Ok};
ghost use Rattle.crush_files.specs.Ended.{EndsOnFiles};

use crush_app::{ScriptEnd, script_on_store};
use sqlite::FileStore;
use sqlite_disk::Disk;
use std::alloc::{AllocError, Global};
use std::io::{Read, Write};
use std::num::NonZeroUsize;
use tenant_files::{FileFault, StoreEnd, close_ready, ready_over};
use tenant_store::{Store, Watch};

/// Plays a script on the tenants of a store over a database file, keeps the placements of
/// `placements` groups, and returns how that ended, with the files that were given back.
///
/// The clauses have the premise that the disk returned what was written (`AreClean`).
/// `Err(AllocError)`: an allocation outside a request failed; no line was served.
pub fn script_on_files<D: Disk + Drop, F: Watch + Drop, R: Read, W: Write>(
    alloc: Global,
    store: Store<FileStore<D>>,
    watch: F,
    placements: NonZeroUsize,
    reader: &mut R,
    writer: &mut W,
) -> (Result<ScriptEnd, AllocError>, StoreEnd<D>)
    requires works { store.1 ≡ false }

    // Lines were served from the states that the rows stood for to those that the file holds now,
    // also after a crash, and what was written has the headline. Or nothing was served and written,
    // and the connection is unchanged.
    ensures ends { EndsOnFiles D.Disk store.0 result.0 result.1.copied result.1.files (R.remaining reader.old) (R.remaining reader.new) (W.contents writer.old) (W.contents writer.new) }

    // Where the file failed for good, it isn't closed.
    ensures failed { result.0 ≡ Ok ScriptEnd.Latched → result.1.copied ≡ Err FileFault.Store }
{
    let ready = match ready_over(alloc, store, watch, placements) {
        Ok(ready) => ready,
        Err(closed) => return (Err(AllocError), closed),
    };
    let (end, ready) = script_on_store(alloc, ready, reader, writer);
    // a failure counts also where the reply of the call that met it couldn't be written
    let closed = close_ready(ready);
    (end, closed)
}

//! Stores over a database file that keep in memory what tenants have: made, and closed.

ghost use Rattle.std.specs.Prelude.{◌≡◌, ◌||◌, Err, false, true, IfOk, IfErr, OnErr};
ghost use Rattle.sqlite.specs.Files.{file_state, over_files};
ghost use Rattle.sqlite.specs.State.{HasCleanDisk};
ghost use Rattle.tenant_store.specs.Shown.{IsHonest};
ghost use Rattle.tenant_files.specs.Closed.{GivesBack};
ghost use Rattle.tenant_files.specs.Closing.{FailsToCopy};

use crate::closing::{StoreEnd, close_store, give_up};
use crate::fault::FileFault;
use sqlite::FileStore;
use sqlite_disk::Disk;
use std::alloc::Global;
use std::num::NonZeroUsize;
use tenant_cache::{ByteBound, CachedStore};
use tenant_core::TenantStore;
use tenant_store::{Store, Watch, WatchedStore};

/// The greatest number of bytes of what tenants have that are kept in memory, where more than one
/// tenant's are: 256 MiB. Hundreds of tenants with maps of middling size fit, and most of a small
/// machine's memory remains for the file's pages and for the script.
pub const READY_BYTES: u64 = 268_435_456;

/// A store over a database file that keeps in memory what tenants have, within `READY_BYTES`. No
/// change is acknowledged once the watch misses the files.
pub type ReadyStore<D, F> = CachedStore<
    WatchedStore<Store<FileStore<D>>, F>,
    ByteBound<READY_BYTES>,
>;

/// Makes the ready store over a store over a file. It keeps the placements of `placements` groups
/// too. `Err(closed)`: an allocation failed; the file is closed.
pub fn ready_over<D: Disk + Drop, F: Watch + Drop>(
    alloc: Global,
    store: Store<FileStore<D>>,
    watch: F,
    placements: NonZeroUsize,
) -> Result<ReadyStore<D, F>, StoreEnd<D>>
    ensures made { IfOk result (λ ready. ready ≡ ((store, watch), false)) }
    ensures given { IfErr result (λ closed. GivesBack store.0 closed.copied closed.files) }
    ensures cause { IfErr result (λ closed. IfErr closed.copied (FailsToCopy store.0 closed.files)) }
    ensures honest { OnErr result (HasCleanDisk (file_state store.0) → IsHonest over_files store) }
{
    let watched = WatchedStore::over(store, watch);
    match CachedStore::over(alloc, watched, placements) {
        Ok(ready) => Ok(ready),
        Err((_error, watched)) => Err(close_store(watched.into_below())),
    }
}

/// Closes the file of a ready store. Nothing is copied where the store failed for good.
pub fn close_ready<D: Disk + Drop, F: Watch + Drop>(ready: ReadyStore<D, F>) -> StoreEnd<D>
    ensures given { GivesBack ready.0.0.0 result.copied result.files }
    ensures failed { (ready.0.0.1 || ready.1) ≡ true → result.copied ≡ Err FileFault.Store }
    ensures cause { (ready.0.0.1 || ready.1) ≡ false → IfErr result.copied (FailsToCopy ready.0.0.0 result.files) }
    ensures honest { HasCleanDisk (file_state ready.0.0.0) → IsHonest over_files ready.0.0 }
{
    let has_failed = ready.is_latched();
    let watched = ready.into_below();
    let store = watched.into_below();
    if has_failed {
        give_up(store)
    } else {
        close_store(store)
    }
}

//! Opening and closing a service of the tenants in the tables of a connection.

ghost use Rattle.std.specs.Prelude.{◌≡◌, ◌⊎◌, false, IfOk, IfErr, IsTrue};
ghost use Rattle.sqlite.specs.Held.{state};
ghost use Rattle.sqlite.specs.State.{HasCleanDisk};
ghost use Rattle.tenant_store.specs.table_schema.specs.sqlite_trees.specs.Tree.{Trees};
ghost use Rattle.tenant_store.specs.table_schema.specs.sqlite_trees.specs.View.{IsClean};
ghost use Rattle.tenant_core.specs.States.{Same};
ghost use Rattle.tenant_store.specs.tenant_tables.specs.Rows.{StandsFor, StatesIn};
ghost use Rattle.tenant_store.specs.Shown.{IsHonest};
ghost use Rattle.tenant_store.specs.tenant_tables.specs.Opened.{IsStrange};

use sqlite::{Alter, Connection};
use std::alloc::Global;
use std::num::NonZeroUsize;
use tenant_cache::{Bound, CachedStore};
use tenant_core::{Routes, StoreFault};
use tenant_service::Service;
use tenant_store::Store;

/// A service over the tables of a connection. In memory it keeps what tenants have, at most the
/// bound `B` in all, or what one tenant has.
pub type TableService<S, B> = Service<CachedStore<Store<S>, B>>;

/// Makes the service over `store`, which keeps at most `placements` placements.
///
/// `Err(below)`: an allocation failed, and `below` is the store below the connection.
fn service_over<S: Alter + Drop, B: Bound>(
    alloc: Global,
    store: Store<S>,
    placements: NonZeroUsize,
) -> Result<TableService<S, B>, S>
    ensures made { IfOk result (λ service. service ≡ store) }
    ensures honest { IfErr result (λ e. IsClean (S.Store.view e) → IsHonest S.Store store) }
    ensures left { IfErr result (λ e. (trees : Trees) → S.Store.recovers e trees → (state S.Store store.0).may_leave trees) }
{
    let Ok(routes) = Routes::build(alloc) else {
        return Err(store.close().into_store());
    };
    match CachedStore::over(alloc, store, placements) {
        Ok(ready) => Ok(Service::with_routes(alloc, routes, ready)),
        Err((_error, store)) => Err(store.close().into_store()),
    }
}

/// Opens the service of the tenants in the tables of `conn`, which keeps at most `placements`
/// placements of their groups. The tables are made where the database has none, those of schema 1
/// are replaced, and else they are tested (`Store::open`).
///
/// `Err((StoreFault::Damaged, store))`: the tables are another's, or of another version. Nothing is
/// changed. `Err((StoreFault::NoMemory, store))`, `Err((StoreFault::Full, store))`,
/// `Err((StoreFault::Failed, store))`: the tables may have been made, or those of schema 1
/// replaced, whole, for the same states. `store` is the one below the connection, since a
/// connection over it takes memory.
pub fn open_service<S: Alter + Drop, B: Bound>(
    alloc: Global,
    conn: Connection<S>,
    placements: NonZeroUsize,
) -> Result<TableService<S, B>, (StoreFault, S)>
    requires autocommit { conn.in_transaction ≡ false }
    requires open { HasCleanDisk (state S.Store conn) → IsTrue (state S.Store conn).is_open }
    requires settled { HasCleanDisk (state S.Store conn) → (state S.Store conn).now ≡ (state S.Store conn).committed }
    ensures works { IfOk result (λ service. service.1 ≡ false) }
    ensures clean { IfOk result (λ service. HasCleanDisk (state S.Store service.0) → HasCleanDisk (state S.Store conn)) }
    ensures honest { IfOk result (λ service. HasCleanDisk (state S.Store service.0) → IsHonest S.Store service) }
    ensures same { IfOk result (λ service. HasCleanDisk (state S.Store service.0) → Same (StatesIn (state S.Store conn).now) (StandsFor (state S.Store service.0).now.trees)) }

    // After a crash now the next opening finds the states that the connection had.
    ensures crash { IfOk result (λ service. HasCleanDisk (state S.Store service.0) → (trees : Trees) → (state S.Store service.0).may_leave trees
        → Same (StatesIn (state S.Store conn).now) (StandsFor trees)) }
    ensures damaged { IfErr result (λ e. IsClean (S.Store.view e.1) → e.0 ≡ StoreFault.Damaged → IsStrange (state S.Store conn).now) }

    // The same where the opening is refused; or it finds what a crash before could leave.
    ensures refused { IfErr result (λ e. IsClean (S.Store.view e.1) → (trees : Trees) → S.Store.recovers e.1 trees
        → (state S.Store conn).may_leave trees ⊎ Same (StatesIn (state S.Store conn).now) (StandsFor trees)) }
{
    match Store::open(alloc, conn) {
        Ok(store) => match service_over(alloc, store, placements) {
            Ok(service) => Ok(service),
            Err(left) => Err((StoreFault::NoMemory, left)),
        },
        Err(refused) => Err(refused),
    }
}

/// Closes the service, and gives its connection back unchanged. Allocates nothing.
pub fn close_service<S: Alter + Drop, B: Bound>(service: TableService<S, B>) -> Connection<S>
    ensures same { result ≡ service.0 }
    ensures honest { HasCleanDisk (state S.Store result) → IsHonest S.Store service }
{
    let store = service.into_store().into_below();
    store.close()
}

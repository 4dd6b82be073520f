//! A connection whose rows are known to be in tables, ordered by rowid.
//!
//! Writes find rows by rowid, and no clause of a connection says that each rowid names one row: a
//! store says it. So a connection is given up for its store, and opened again over it.

ghost use Rattle.std.specs.Prelude.{◌≡◌, ◌⊎◌, false, IfOk, IfErr, IsTrue};
ghost use Rattle.sqlite.specs.Held.{state};
ghost use Rattle.sqlite.specs.State.{HasCleanDisk};
ghost use Rattle.sqlite_trees.specs.View.{IsClean};
ghost use Rattle.tenant_tables.specs.Opened.{AreTablesAt};
ghost use Rattle.table_schema.specs.Ready.{IsReady};

use sqlite::{Alter, Connection};
use sqlite_trees::store::Shape;
use std::alloc::Global;
use table_schema::refuse::fault_of;
use table_schema::schema::{Layout, is_laid_out, layout_of};
use tenant_messages::StoreFault;

/// Returns whether the store isn't broken, and the trees of the tables in `layout` hold rows by
/// rowid.
fn are_rows<S: Alter>(store: &S, layout: Layout) -> bool
    ensures sound { IsTrue result → IsClean (S.Store.view store.now) → (S.Store.view store.now).is_broken ≡ false }
    ensures tables { IsTrue result → IsClean (S.Store.view store.now) → AreTablesAt layout (S.Store.view store.now).trees }
{
    !store.is_broken()
        && store.shape(1) == Shape::Table
        && store.shape(4) == Shape::Table
        && store.shape(6) == Shape::Table
        && store.shape(layout.pools_tree()) == Shape::Table
        && store.shape(layout.receipts_tree()) == Shape::Table
        && store.shape(layout.exceptions_tree()) == Shape::Table
}

/// Opens a connection again, with this service's tables as they were committed.
///
/// `Err((StoreFault::NoMemory, store))`, `Err((StoreFault::Failed, store))`: no row is changed.
pub fn reopen<S: Alter + Drop>(
    alloc: Global,
    conn: Connection<S>,
) -> Result<Connection<S>, (StoreFault, S)>
    ensures ready { IfOk result (λ c. HasCleanDisk (state S.Store c) → IsReady (state S.Store c)) }
    ensures same { IfOk result (λ c. HasCleanDisk (state S.Store c) → (state S.Store c).now.trees ≡ (state S.Store conn).committed.trees) }
    ensures left { IfOk result (λ c. HasCleanDisk (state S.Store c) → (state S.Store conn).may_leave (state S.Store c).now.trees) }
    ensures clean { IfOk result (λ c. HasCleanDisk (state S.Store c) → HasCleanDisk (state S.Store conn)) }
    ensures ended { IfOk result (λ c. c.in_transaction ≡ false) }
    ensures faults { IfErr result (λ e. (e.0 ≡ StoreFault.NoMemory) ⊎ (e.0 ≡ StoreFault.Failed)) }
    ensures crash { IfErr result (λ e. IsClean (S.Store.view e.1) → (db : _) → S.Store.recovers e.1 db → (state S.Store conn).may_leave db) }
    ensures was_clean { IfErr result (λ e. IsClean (S.Store.view e.1) → HasCleanDisk (state S.Store conn)) }
{
    let Some(layout) = layout_of(conn.schema()) else {
        return Err((StoreFault::Failed, conn.into_store()));
    };
    let store = conn.into_store();
    if !are_rows(&store, layout) {
        return Err((StoreFault::Failed, store));
    }
    match Connection::over(alloc, store) {
        Ok(conn) => {
            if is_laid_out(conn.schema(), layout) {
                Ok(conn)
            } else {
                Err((StoreFault::Failed, conn.into_store()))
            }
        }
        Err((error, store)) => match fault_of(error) {
            StoreFault::NoMemory => Err((StoreFault::NoMemory, store)),
            _ => Err((StoreFault::Failed, store)),
        },
    }
}

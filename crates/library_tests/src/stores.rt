//! Calls of `tenant_store`.

ghost use Rattle.std.specs.Prelude.{◌≡◌, false, IsTrue};
ghost use Rattle.sqlite.specs.Held.{state};
ghost use Rattle.sqlite.specs.State.{HasCleanDisk};
ghost use Rattle.tenant_core.specs.tenant_state.specs.State.{CanMake, fresh};

use crate::tenants::first_change;
use sqlite::{Alter, Connection};
use std::alloc::{AllocError, Global};
use std::process::Abort;
use std::test::Fail;
use tenant_core::{Change, TenantState};
use tenant_store::{
    ExceptionRow, PoolRow, ReceiptRow, StateRow, Store, StoreFault, TenantStore, VersionRow,
    from_rows,
};

/// Creates the tenant `name`, which is absent, makes its first change, and removes it where
/// `removes` says so.
fn write<T: TenantStore>(
    store: &mut T,
    name: &str,
    change: &Change,
    removes: bool,
) -> Result<(), StoreFault>
    requires open { T.latched store.old ≡ false }
    requires makes { CanMake change.now fresh }
{
    let None = store.load(name)? else {
        return Err(StoreFault::Damaged);
    };
    store.create(name)?;
    store.commit(name, change)?;
    if removes {
        store.remove(name)?;
    }
    Ok(())
}

/// Asserts that a tenant that is created, changed and removed is absent, and that another one has
/// the version of its first change.
fn assert_kept<T: TenantStore>(rt: &impl Abort, store: &mut T, change: &Change)
    requires open { T.latched store.old ≡ false }
    requires makes { CanMake change.now fresh }
{
    assert!(rt; write(store, "a", change, true).is_ok());
    assert!(rt; !store.is_latched());
    assert!(rt; write(store, "b", change, false).is_ok());
    assert!(rt; !store.is_latched());
    assert!(rt; matches!(store.load("a"), Ok(None)));
    assert!(rt; !store.is_latched());
    assert!(rt; matches!(store.load("b"), Ok(Some(inventory)) if inventory.newest() == 1));
}

/// Opens the store in the tables of a connection, asserts what it keeps, and closes it. `None`: it
/// isn't opened.
fn closed_after<S: Alter + Drop>(
    rt: &impl Abort,
    alloc: Global,
    conn: Connection<S>,
    change: &Change,
) -> Option<Connection<S>>
    requires autocommit { conn.in_transaction ≡ false }
    requires open { HasCleanDisk (state S.Store conn) → IsTrue (state S.Store conn).is_open }
    requires settled { HasCleanDisk (state S.Store conn) → (state S.Store conn).now ≡ (state S.Store conn).committed }
    requires makes { CanMake change.now fresh }
{
    match Store::open(alloc, conn) {
        Ok(mut store) => {
            assert_kept(rt, &mut store, change);
            Some(store.close())
        }
        Err(_) => None,
    }
}

/// A tenant that is removed is absent, and another one has the version that it imported.
#[test]
fn tenant_store_has_its_calls(rt: HostRuntime) -> Result<(), Fail> {
    let alloc = rt.alloc();
    let change = first_change(alloc)?;
    let conn = Connection::open_in_memory(alloc)?;
    let Some(mut conn) = closed_after(&rt, alloc, conn, &change) else {
        return Err(Fail::new("the store isn't opened"));
    };
    assert!(rt; conn.query_all("SELECT version FROM maps", &[]).is_ok());
    Ok(())
}

/// Makes the state of a tenant of this epoch that has no rows but these exceptions. `None`: they
/// are the rows of no state.
fn state_of(
    alloc: Global,
    epoch: i64,
    exceptions: &[ExceptionRow],
) -> Result<Option<TenantState>, AllocError> {
    let versions: Vec<VersionRow> = Vec::new(alloc);
    let states: Vec<StateRow> = Vec::new(alloc);
    let pools: Vec<PoolRow> = Vec::new(alloc);
    let receipts: Vec<ReceiptRow> = Vec::new(alloc);
    from_rows(alloc, epoch, versions, states, pools, exceptions, receipts)
}

/// No rows are those of a tenant that was just created, which has the epoch 0. An exception has its
/// pool.
#[test]
fn states_come_from_rows(rt: HostRuntime) -> Result<(), Fail> {
    let alloc = rt.alloc();
    let made = state_of(alloc, 0, &[])?;
    assert!(rt; matches!(&made, Some(state) if state.inventory().epoch() == 0));
    let alone = ExceptionRow {
        pool: 1,
        place: 0,
        group: 0,
        from: 0,
        to: 1,
    };
    assert!(rt; state_of(alloc, 0, &[alone])?.is_none());
    assert!(rt; state_of(alloc, 1, &[])?.is_none());
    Ok(())
}

//! Writing into the tables of a store.

ghost use Rattle.std.specs.Prelude.{◌≡◌, ◌≢◌, length, false, Some, None, Err, OnOk, OnErr};
ghost use Rattle.std.specs.BTreeMap.{get_by_text};
ghost use Rattle.table_schema.specs.Ready.{IsReady};
ghost use Rattle.sqlite.specs.Held.{state};
ghost use Rattle.sqlite.specs.State.{HasCleanDisk, Survives};
ghost use Rattle.tenant_core.specs.StoreReply.{is_failed};
ghost use Rattle.tenant_core.specs.tenant_state.specs.State.{CanMake, TenantState, after};
ghost use Rattle.tenant_tables.specs.Changes.{Turns};
ghost use Rattle.tenant_tables.specs.Rows.{StandsFor};
ghost use Rattle.tenant_store.specs.Judged.{AreJudged};

use crate::judged::{JudgedVersions, update};
use crate::reading::{count_versions, tenant_of};
use sqlite::Alter;
use std::alloc::Global;
use tenant_core::{Change, Product, StoreFault};
use tenant_tables::tables::TenantTables;
use tenant_tables::write_change;

/// Returns the number of versions after `change`, where there were `versions` before.
fn versions_after(versions: u64, change: &Change) -> u64
    ensures { (s : TenantState) → CanMake change.now s → versions ≡ length s.versions → result ≡ length (after change.now s).versions }
{
    match &change.made {
        Product::Version(_) => versions.saturating_add(1),
        _ => versions,
    }
}

/// Makes the change of the tenant with the name, which has to be there.
pub fn commit<S: Alter>(
    alloc: Global,
    tables: &mut TenantTables<S>,
    judged: &mut JudgedVersions,
    name: &str,
    change: &Change,
) -> Result<(), StoreFault>
    requires live { tables.old.1 ≡ false }
    requires there { HasCleanDisk (state S.Store tables.old.0) → IsReady (state S.Store tables.old.0) → (s : TenantState) × StandsFor (state S.Store tables.old.0).now.trees name.now (Some s) × CanMake change.now s }
    requires judged { HasCleanDisk (state S.Store tables.old.0) → AreJudged (state S.Store tables.old.0).now.trees (get_by_text judged.old) }
    ensures ready { HasCleanDisk (state S.Store tables.old.0) → IsReady (state S.Store tables.old.0) }
    ensures made { HasCleanDisk (state S.Store tables.new.0) → (s : TenantState) → StandsFor (state S.Store tables.old.0).now.trees name.now (Some s)
        → CanMake change.now s → OnOk result (Turns name.now (Some (after change.now s)) (state S.Store tables.old.0).now.trees (state S.Store tables.new.0).now.trees) }
    ensures kept { HasCleanDisk (state S.Store tables.new.0) → tables.new.1 ≡ false → OnErr result ((state S.Store tables.new.0).now ≡ (state S.Store tables.old.0).now) }
    ensures damaged { HasCleanDisk (state S.Store tables.new.0) → result ≢ Err StoreFault.Damaged }
    ensures judged { HasCleanDisk (state S.Store tables.new.0) → tables.new.1 ≡ false → AreJudged (state S.Store tables.new.0).now.trees (get_by_text judged.new) }
    ensures latches { tables.new.1 ≡ is_failed result }
    ensures crash { Survives (state S.Store tables.old.0) (state S.Store tables.new.0) (λ db. (s : TenantState) → StandsFor (state S.Store tables.old.0).now.trees name.now (Some s) → CanMake change.now s
        → Turns name.now (Some (after change.now s)) (state S.Store tables.old.0).now.trees db) }
{
    let tenant = tenant_of(tables, name)?;
    let versions = count_versions(alloc, tables, judged, name, &tenant)?;
    write_change(alloc, tables, &tenant, versions, change)?;
    update(judged, name, versions_after(versions, change));
    Ok(())
}

/// Removes the tenant with the name, which has to be there, and everything that it has.
pub fn remove<S: Alter>(tables: &mut TenantTables<S>, name: &str) -> Result<(), StoreFault>
    requires live { tables.old.1 ≡ false }
    requires there { HasCleanDisk (state S.Store tables.old.0) → IsReady (state S.Store tables.old.0) → (s : TenantState) × StandsFor (state S.Store tables.old.0).now.trees name.now (Some s) }
    ensures ready { HasCleanDisk (state S.Store tables.old.0) → IsReady (state S.Store tables.old.0) }
    ensures made { HasCleanDisk (state S.Store tables.new.0) → OnOk result (Turns name.now None (state S.Store tables.old.0).now.trees (state S.Store tables.new.0).now.trees) }
    ensures kept { HasCleanDisk (state S.Store tables.new.0) → tables.new.1 ≡ false → OnErr result ((state S.Store tables.new.0).now ≡ (state S.Store tables.old.0).now) }
    ensures damaged { HasCleanDisk (state S.Store tables.new.0) → result ≢ Err StoreFault.Damaged }
    ensures latches { tables.new.1 ≡ is_failed result }
    ensures crash { Survives (state S.Store tables.old.0) (state S.Store tables.new.0) (Turns name.now None (state S.Store tables.old.0).now.trees) }
{
    let tenant = tenant_of(tables, name)?;
    tables.remove(tenant.id)
}

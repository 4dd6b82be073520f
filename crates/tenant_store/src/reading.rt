//! Reading from the tables of a store.

ghost use Rattle.std.specs.Prelude.{◌≡◌, ◌≢◌, ℕ, List, length, map, true, false, Some, Err, IfOk, OnOk, IsPermutation, option_map};
ghost use Rattle.std.specs.List.{list_all};
ghost use Rattle.std.specs.BTreeMap.{get_by_text};
ghost use Rattle.sqlite.specs.Held.{state};
ghost use Rattle.sqlite.specs.State.{HasCleanDisk, Survives};
ghost use Rattle.table_schema.specs.sqlite_value.specs.Order.{Row};
ghost use Rattle.table_schema.specs.sqlite_value.specs.declared.value.Value.TheVariants.{Text as Words};
ghost use Rattle.tenant_core.specs.States.{HasInventory, IsDamaged};
ghost use Rattle.tenant_core.specs.StoreReply.{is_failed};
ghost use Rattle.tenant_core.specs.tenant_state.specs.Ordered.{is_ascending};
ghost use Rattle.tenant_core.specs.tenant_state.specs.Receipts.{Receipts, is_before, receipt_of};
ghost use Rattle.tenant_core.specs.tenant_state.specs.State.{Inventory as Has, TenantState, inventory_of};
ghost use Rattle.tenant_core.specs.tenant_state.specs.Valid.{is_receipt};
ghost use Rattle.table_schema.specs.Found.{AreReceipt, Names};
ghost use Rattle.table_schema.specs.Holds.{rows_with};
ghost use Rattle.table_schema.specs.Ready.{IsReady};
ghost use Rattle.tenant_tables.specs.Changes.{HasReceipts, HasRows};
ghost use Rattle.tenant_tables.specs.Lists.{IsOfState};
ghost use Rattle.tenant_tables.specs.Rows.{StandsFor, row_of_receipt};
ghost use Rattle.tenant_store.specs.Judged.{AreJudged};

use crate::judged::{JudgedVersions, remember};
use sqlite::Alter;
use std::alloc::Global;
use std::rc::Rc;
use table_schema::find::Tenant;
use table_schema::rows::ReceiptRow;
use tenant_core::{Inventory, Receipt, StoreFault};
use tenant_tables::tables::TenantTables;
use tenant_tables::{judge_receipts, read_inventory, receipt_from};

/// Judges the receipts of `tenant`, unless those of its name were judged, and remembers that they
/// were. The tenant has `versions` versions.
fn judge<S: Alter>(
    alloc: Global,
    tables: &mut TenantTables<S>,
    judged: &mut JudgedVersions,
    name: &str,
    tenant: &Tenant,
    versions: u64,
) -> Result<(), StoreFault>
    requires live { tables.old.1 ≡ false }
    requires names { HasCleanDisk (state S.Store tables.old.0) → Names (state S.Store tables.old.0).now.trees name.now (Some tenant.now) }
    requires rows { HasCleanDisk (state S.Store tables.old.0) → (i : Has) × IsOfState i × HasRows (state S.Store tables.old.0).now.trees tenant.now i × (length i.versions ≡ versions) }
    requires judged { HasCleanDisk (state S.Store tables.old.0) → AreJudged (state S.Store tables.old.0).now.trees (get_by_text judged.old) }
    ensures has { HasCleanDisk (state S.Store tables.new.0) → OnOk result ((receipts : Receipts) × HasReceipts (state S.Store tables.old.0).now.trees tenant.now receipts) }
    ensures damaged { HasCleanDisk (state S.Store tables.new.0) → result ≡ Err StoreFault.Damaged → (receipts : Receipts) → ¬ HasReceipts (state S.Store tables.old.0).now.trees tenant.now receipts }
    ensures judged { HasCleanDisk (state S.Store tables.new.0) → AreJudged (state S.Store tables.old.0).now.trees (get_by_text judged.new) }
    ensures kept { HasCleanDisk (state S.Store tables.new.0) → tables.new.1 ≡ false → (state S.Store tables.new.0).now ≡ (state S.Store tables.old.0).now }
    ensures latches { tables.new.1 ≡ is_failed result }
    ensures crash { Survives (state S.Store tables.old.0) (state S.Store tables.new.0) (λ _. ⊥) }
{
    if judged.contains_key(name) {
        return Ok(());
    }
    judge_receipts(tables, tenant)?;
    remember(alloc, judged, name, versions);
    Ok(())
}

/// Reads what `tenant` has, and judges its receipts, unless those of its name were judged.
fn load_tenant<S: Alter>(
    alloc: Global,
    tables: &mut TenantTables<S>,
    judged: &mut JudgedVersions,
    name: &str,
    tenant: &Tenant,
) -> Result<Rc<Inventory>, StoreFault>
    requires live { tables.old.1 ≡ false }
    requires names { HasCleanDisk (state S.Store tables.old.0) → Names (state S.Store tables.old.0).now.trees name.now (Some tenant.now) }
    requires judged { HasCleanDisk (state S.Store tables.old.0) → AreJudged (state S.Store tables.old.0).now.trees (get_by_text judged.old) }
    ensures found { HasCleanDisk (state S.Store tables.new.0) → IfOk result (λ i. (s : TenantState) × StandsFor (state S.Store tables.old.0).now.trees name.now (Some s) × (i.value ≡ inventory_of s)) }
    ensures damaged { HasCleanDisk (state S.Store tables.new.0) → result ≡ Err StoreFault.Damaged → (s : TenantState) → ¬ StandsFor (state S.Store tables.old.0).now.trees name.now (Some s) }
    ensures judged { HasCleanDisk (state S.Store tables.new.0) → AreJudged (state S.Store tables.old.0).now.trees (get_by_text judged.new) }
    ensures kept { HasCleanDisk (state S.Store tables.new.0) → tables.new.1 ≡ false → (state S.Store tables.new.0).now ≡ (state S.Store tables.old.0).now }
    ensures latches { tables.new.1 ≡ is_failed result }
    ensures crash { Survives (state S.Store tables.old.0) (state S.Store tables.new.0) (λ _. ⊥) }
{
    let inventory = read_inventory(alloc, tables, tenant)?;
    judge(alloc, tables, judged, name, tenant, inventory.newest())?;
    Ok(inventory)
}

/// Reads what the tenant with the name has, or `None` where there is none.
pub fn load<S: Alter>(
    alloc: Global,
    tables: &mut TenantTables<S>,
    judged: &mut JudgedVersions,
    name: &str,
) -> Result<Option<Rc<Inventory>>, StoreFault>
    requires live { tables.old.1 ≡ false }
    requires judged { HasCleanDisk (state S.Store tables.old.0) → AreJudged (state S.Store tables.old.0).now.trees (get_by_text judged.old) }
    ensures ready { HasCleanDisk (state S.Store tables.old.0) → IsReady (state S.Store tables.old.0) }
    ensures found { HasCleanDisk (state S.Store tables.new.0) → IfOk result (λ found. HasInventory (StandsFor (state S.Store tables.old.0).now.trees) name.now (option_map (λ r. r.value) found)) }
    ensures damaged { HasCleanDisk (state S.Store tables.new.0) → result ≡ Err StoreFault.Damaged → IsDamaged (StandsFor (state S.Store tables.old.0).now.trees) name.now }
    ensures judged { HasCleanDisk (state S.Store tables.new.0) → AreJudged (state S.Store tables.old.0).now.trees (get_by_text judged.new) }
    ensures kept { HasCleanDisk (state S.Store tables.new.0) → tables.new.1 ≡ false → (state S.Store tables.new.0).now ≡ (state S.Store tables.old.0).now }
    ensures latches { tables.new.1 ≡ is_failed result }
    ensures crash { Survives (state S.Store tables.old.0) (state S.Store tables.new.0) (λ _. ⊥) }
{
    match tables.find(name)? {
        Some(tenant) => Ok(Some(load_tenant(alloc, tables, judged, name, &tenant)?)),
        None => Ok(None),
    }
}

/// Returns the receipt of `row`, or `None` where there is no row.
fn receipt_in(alloc: Global, row: Option<ReceiptRow>) -> Result<Option<Rc<Receipt>>, StoreFault>
    ensures found { (number : List ℕ) (receipts : Receipts) (rows : List Row) → IsPermutation rows (map row_of_receipt receipts) → list_all is_receipt receipts ≡ true → is_ascending is_before receipts ≡ true
        → AreReceipt (rows_with 0 (Words number) rows) row → IfOk result (λ found. option_map (λ r. r.value) found ≡ receipt_of number receipts) }
    ensures damaged { result ≡ Err StoreFault.Damaged → (number : List ℕ) (receipts : Receipts) (rows : List Row) → IsPermutation rows (map row_of_receipt receipts) → list_all is_receipt receipts ≡ true → is_ascending is_before receipts ≡ true
        → ¬ AreReceipt (rows_with 0 (Words number) rows) row }
    ensures works { result ≢ Err StoreFault.Failed }
{
    match row {
        Some(row) => match receipt_from(alloc, row)? {
            Some((_number, receipt)) => Ok(Some(receipt)),
            None => Err(StoreFault::Damaged),
        },
        None => Ok(None),
    }
}

/// Reads the row of the tenant with the name. `Err(StoreFault::Damaged)`: there is no tenant with
/// it, several rows have it, or its row is none that this service writes.
pub fn tenant_of<S: Alter>(tables: &mut TenantTables<S>, name: &str) -> Result<Tenant, StoreFault>
    requires live { tables.old.1 ≡ false }
    requires there { HasCleanDisk (state S.Store tables.old.0) → IsReady (state S.Store tables.old.0) → (s : TenantState) × StandsFor (state S.Store tables.old.0).now.trees name.now (Some s) }
    ensures ready { HasCleanDisk (state S.Store tables.old.0) → IsReady (state S.Store tables.old.0) }
    ensures names { HasCleanDisk (state S.Store tables.new.0) → IfOk result (λ tenant. Names (state S.Store tables.old.0).now.trees name.now (Some tenant)) }
    ensures damaged { HasCleanDisk (state S.Store tables.new.0) → result ≢ Err StoreFault.Damaged }
    ensures kept { HasCleanDisk (state S.Store tables.new.0) → tables.new.1 ≡ false → (state S.Store tables.new.0).now ≡ (state S.Store tables.old.0).now }
    ensures latches { tables.new.1 ≡ is_failed result }
    ensures crash { Survives (state S.Store tables.old.0) (state S.Store tables.new.0) (λ _. ⊥) }
{
    match tables.find(name)? {
        Some(tenant) => Ok(tenant),
        None => Err(StoreFault::Damaged),
    }
}

/// Reads the receipt that the tenant with the name has for the request number `number`, or `None`
/// where there is none.
pub fn find_receipt<S: Alter>(
    alloc: Global,
    tables: &mut TenantTables<S>,
    name: &str,
    number: &str,
) -> Result<Option<Rc<Receipt>>, StoreFault>
    requires live { tables.old.1 ≡ false }
    requires there { HasCleanDisk (state S.Store tables.old.0) → IsReady (state S.Store tables.old.0) → (s : TenantState) × StandsFor (state S.Store tables.old.0).now.trees name.now (Some s) }
    ensures ready { HasCleanDisk (state S.Store tables.old.0) → IsReady (state S.Store tables.old.0) }
    ensures found { HasCleanDisk (state S.Store tables.new.0) → (s : TenantState) → StandsFor (state S.Store tables.old.0).now.trees name.now (Some s) → IfOk result (λ found. option_map (λ r. r.value) found ≡ receipt_of number.now s.receipts) }
    ensures damaged { HasCleanDisk (state S.Store tables.new.0) → result ≢ Err StoreFault.Damaged }
    ensures kept { HasCleanDisk (state S.Store tables.new.0) → tables.new.1 ≡ false → (state S.Store tables.new.0).now ≡ (state S.Store tables.old.0).now }
    ensures latches { tables.new.1 ≡ is_failed result }
    ensures crash { Survives (state S.Store tables.old.0) (state S.Store tables.new.0) (λ _. ⊥) }
{
    let tenant = tenant_of(tables, name)?;
    let row = tables.receipt_of(tenant.id, number)?;
    receipt_in(alloc, row)
}

/// Returns the number of versions of `tenant`: as it was remembered, or else by its rows.
pub fn count_versions<S: Alter>(
    alloc: Global,
    tables: &mut TenantTables<S>,
    judged: &JudgedVersions,
    name: &str,
    tenant: &Tenant,
) -> Result<u64, StoreFault>
    requires live { tables.old.1 ≡ false }
    requires there { HasCleanDisk (state S.Store tables.old.0) → (s : TenantState) × StandsFor (state S.Store tables.old.0).now.trees name.now (Some s) × Names (state S.Store tables.old.0).now.trees name.now (Some tenant.now) }
    requires judged { HasCleanDisk (state S.Store tables.old.0) → AreJudged (state S.Store tables.old.0).now.trees (get_by_text judged.now) }
    ensures found { HasCleanDisk (state S.Store tables.new.0) → (s : TenantState) → StandsFor (state S.Store tables.old.0).now.trees name.now (Some s) → IfOk result (λ n. n ≡ length s.versions) }
    ensures damaged { HasCleanDisk (state S.Store tables.new.0) → result ≢ Err StoreFault.Damaged }
    ensures kept { HasCleanDisk (state S.Store tables.new.0) → tables.new.1 ≡ false → (state S.Store tables.new.0).now ≡ (state S.Store tables.old.0).now }
    ensures latches { tables.new.1 ≡ is_failed result }
    ensures crash { Survives (state S.Store tables.old.0) (state S.Store tables.new.0) (λ _. ⊥) }
{
    if let Some(versions) = judged.get(name) {
        return Ok(*versions);
    }
    let inventory = read_inventory(alloc, tables, tenant)?;
    Ok(inventory.newest())
}

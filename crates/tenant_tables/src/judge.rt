//! Whether a tenant's receipts are those of a state, a page at a time.

ghost use Rattle.std.specs.Prelude.{◌≡◌, ◌↔◌, ◌<◌, ◌+◌, List, map, length, false, Ok, Err, None, IfOk, IfErr, IfSome, OnOk, IsTrue};
ghost use Rattle.std.specs.List.{AllByRecursion};
ghost use Rattle.sqlite.specs.Held.{state};
ghost use Rattle.sqlite.specs.State.{HasCleanDisk};
ghost use Rattle.table_schema.specs.sqlite_value.specs.Order.{Row};
ghost use Rattle.tenant_state.specs.Receipts.{Receipts};
ghost use Rattle.table_schema.specs.Found.{Begins, receipt_values};
ghost use Rattle.tenant_tables.specs.Changes.{HasReceipts};
ghost use Rattle.tenant_tables.specs.Pages.{AreReceipts, IsOfReceipt, IsTail, Leaves};
ghost use Rattle.tenant_tables.specs.Reads.{ChangesNoRow};

use crate::parts::is_receipt_row;
use crate::tables::TenantTables;
use sqlite::Alter;
use table_schema::find::Tenant;
use table_schema::pages::PAGE;
use table_schema::rows::ReceiptRow;
use tenant_messages::StoreFault;

/// The receipts that are still to be judged: those whose request numbers are above `after`, of
/// which there have to be `left`.
#[derive(Drop)]
struct Rest {
    after: String,
    left: u64,
}

/// Returns whether each row is that of a receipt.
fn are_receipts(rows: &[ReceiptRow]) -> bool
    ensures { IsTrue result ↔ AllByRecursion IsOfReceipt (map receipt_values rows.now) }
{
    for row in rows {
        if !is_receipt_row(row) {
            return false;
        }
    }
    true
}

/// Judges `page`, the first page of rows that have to be those of `left` receipts. `None`: there is
/// no other page, and the rows are those receipts. `Err(StoreFault::Damaged)`: they are not,
/// whatever follows the page. The page is dropped before the next one is read.
fn rest_behind(page: Vec<ReceiptRow>, left: u64) -> Result<Option<Rest>, StoreFault>
    ensures leaves { (all rows : List Row) → IsTail all rows → Begins 16 rows (map receipt_values page.items) → IfOk result (Leaves all rows left) }
    ensures damaged { result ≡ Err StoreFault.Damaged → (rows : List Row) → Begins 16 rows (map receipt_values page.items) → ¬ AreReceipts left rows }
    ensures fewer { IfOk result (λ o. IfSome o (λ rest. rest.left < left)) }
    ensures faults { IfErr result (λ fault. fault ≡ StoreFault.Damaged) }
{
    let mut page = page;
    let length = page.len();
    if !are_receipts(&page) {
        return Err(StoreFault::Damaged);
    }
    let Some(left) = left.checked_sub(length as u64) else {
        return Err(StoreFault::Damaged);
    };
    let last = if length < PAGE { None } else { page.pop() };
    match last {
        Some(row) => Ok(Some(Rest {
            after: row.request,
            left,
        })),
        None if left == 0 => Ok(None),
        None => Err(StoreFault::Damaged),
    }
}

/// Tests the receipts of the tenant, in pages: each row has to be a receipt, and their number has
/// to be the epoch. No row is changed.
///
/// `Err(StoreFault::Damaged)`: exactly where they are the receipts of no state.
/// `Err(StoreFault::NoMemory)`: an allocation failed. `Err(StoreFault::Failed)`: the tables are
/// latched.
pub fn judge_receipts<S: Alter>(
    tables: &mut TenantTables<S>,
    tenant: &Tenant,
) -> Result<(), StoreFault>
    requires live { tables.old.1 ≡ false }
    ensures found { HasCleanDisk (state S.Store tables.new.0) → OnOk result ((receipts : Receipts) × HasReceipts (state S.Store tables.old.0).now.trees tenant.now receipts) }
    ensures damaged { HasCleanDisk (state S.Store tables.new.0) → result ≡ Err StoreFault.Damaged → (receipts : Receipts) → ¬ HasReceipts (state S.Store tables.old.0).now.trees tenant.now receipts }
    ensures reads { ChangesNoRow S.Store result tables.old tables.new }
{
    let Ok(number) = u64::try_from(tenant.epoch) else {
        return Err(StoreFault::Damaged);
    };
    let page = tables.receipts_behind(tenant.id, None)?;
    let mut rest = rest_behind(page, number)?;
    while let Some(more) = rest {
        let page = tables.receipts_behind(tenant.id, Some(more.after.as_str()))?;
        rest = rest_behind(page, more.left)?;
    }
    Ok(())
}

//! The state of a tenant, from its rows.

ghost use Rattle.std.specs.Prelude.{◌≡◌, ◌≢◌, map, true, None, IfOk, IfSome};
ghost use Rattle.std.specs.List.{list_all};
ghost use Rattle.tenant_state.specs.Ordered.{is_ascending};
ghost use Rattle.tenant_state.specs.Receipts.{Receipts as ListOfReceipts, is_before};
ghost use Rattle.tenant_state.specs.State.{TenantState as StateOfTenant};
ghost use Rattle.tenant_state.specs.Valid.{IsState, is_receipt};
ghost use Rattle.table_schema.specs.Found.{receipt_values};
ghost use Rattle.tenant_tables.specs.Lists.{AreRowsOfState};
ghost use Rattle.tenant_tables.specs.Rows.{row_of_receipt};

use crate::inventory::inventory_from;
use crate::parts::receipt_from;
use std::alloc::{AllocError, Global};
use table_schema::rows::{PoolRow, ReceiptRow, VersionRow};
use table_schema::values::{ExceptionRow, StateRow};
use tenant_state::{Receipts, TenantState};

/// Returns the receipts of `rows`, in the order of their request numbers. `None`, exactly where
/// they are the rows of no receipts. `Err(AllocError)`: an allocation failed.
pub fn receipts_from(alloc: Global, rows: Vec<ReceiptRow>) -> Result<Option<Receipts>, AllocError>
    ensures some { IfOk result (λ o. IfSome o (λ receipts. (list_all is_receipt receipts ≡ true) × (is_ascending is_before receipts ≡ true) × (map receipt_values rows.items ≡ map row_of_receipt receipts))) }
    ensures none { IfOk result (λ o. o ≡ None → (receipts : ListOfReceipts) → list_all is_receipt receipts ≡ true → is_ascending is_before receipts ≡ true → map receipt_values rows.items ≢ map row_of_receipt receipts) }
{
    let mut receipts = Vec::with_capacity(alloc, rows.len())?;
    for row in rows {
        match receipt_from(alloc, row)? {
            Some(receipt) => receipts.push(receipt)?,
            None => return Ok(None),
        }
    }
    Receipts::from_list(alloc, receipts)
}

/// Returns the state of the tenant with `epoch` and the rows. Each list of rows is in the order of
/// its keys. `None`, exactly where they are the rows of no state. `Err(AllocError)`: an allocation
/// failed.
pub fn from_rows(
    alloc: Global,
    epoch: i64,
    versions: Vec<VersionRow>,
    states: Vec<StateRow>,
    pools: Vec<PoolRow>,
    exceptions: &[ExceptionRow],
    receipts: Vec<ReceiptRow>,
) -> Result<Option<TenantState>, AllocError>
    ensures some { IfOk result (λ o. IfSome o (λ s. IsState s × AreRowsOfState s epoch versions.items states.items pools.items exceptions.now receipts.items)) }
    ensures none { IfOk result (λ o. o ≡ None → (s : StateOfTenant) → IsState s → ¬ AreRowsOfState s epoch versions.items states.items pools.items exceptions.now receipts.items) }
{
    let count = receipts.len() as u64;
    let Some(inventory) = inventory_from(alloc, epoch, versions, states, pools, exceptions)? else {
        return Ok(None);
    };
    let Some(receipts) = receipts_from(alloc, receipts)? else {
        return Ok(None);
    };
    if inventory.epoch() != count {
        return Ok(None);
    }
    Ok(Some(TenantState::of(inventory, receipts)))
}

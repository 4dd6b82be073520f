//! What a tenant has, from the tables.

ghost use Rattle.std.specs.Prelude.{◌≡◌, false, IfOk, Err};
ghost use Rattle.sqlite.specs.Held.{state};
ghost use Rattle.sqlite.specs.State.{HasCleanDisk};
ghost use Rattle.tenant_state.specs.State.{Inventory as Has};
ghost use Rattle.tenant_tables.specs.Changes.{HasRows};
ghost use Rattle.tenant_tables.specs.Lists.{IsOfState};
ghost use Rattle.tenant_tables.specs.Reads.{ChangesNoRow};

use crate::inventory::inventory_from;
use crate::tables::TenantTables;
use crush_text::canonical_texts_are_ascii;
use sqlite::Alter;
use std::alloc::Global;
use std::rc::Rc;
use table_schema::find::Tenant;
use table_schema::rows::{PoolRow, VersionRow};
use table_schema::values::{ExceptionRow, StateRow};
use tenant_messages::StoreFault;
use tenant_state::Inventory;

/// Reads what the tenant with the number and the epoch has. No row is changed.
///
/// `Err(StoreFault::Damaged)`: exactly where its rows are those of no state.
/// `Err(StoreFault::NoMemory)`: an allocation failed. `Err(StoreFault::Failed)`: the tables are
/// latched.
pub fn read_inventory<S: Alter>(
    alloc: Global,
    tables: &mut TenantTables<S>,
    tenant: &Tenant,
) -> Result<Rc<Inventory>, StoreFault>
    requires live { tables.old.1 ≡ false }
    ensures found { HasCleanDisk (state S.Store tables.new.0) → IfOk result (λ i. IsOfState i.value × HasRows (state S.Store tables.old.0).now.trees tenant.now i.value) }
    ensures damaged { HasCleanDisk (state S.Store tables.new.0) → result ≡ Err StoreFault.Damaged → (i : Has) → IsOfState i → ¬ HasRows (state S.Store tables.old.0).now.trees tenant.now i }
    ensures reads { ChangesNoRow S.Store result tables.old tables.new }
{
    canonical_texts_are_ascii();
    let versions: Vec<VersionRow> = tables.list_of(tenant.id)?;
    let devices: Vec<StateRow> = tables.list_of(tenant.id)?;
    let pools: Vec<PoolRow> = tables.list_of(tenant.id)?;
    let exceptions: Vec<ExceptionRow> = tables.list_of(tenant.id)?;
    match inventory_from(alloc, tenant.epoch, versions, devices, pools, &exceptions)? {
        Some(inventory) => Ok(inventory),
        None => Err(StoreFault::Damaged),
    }
}

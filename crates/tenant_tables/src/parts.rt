//! The parts of a tenant's state from rows of its tables.

ghost use Rattle.std.specs.Prelude.{◌≡◌, ◌≢◌, ◌<◌, ◌^◌, ℕ, pos, List, Bool, true, map, ◌↔◌, None, IfOk, IfSome, IsTrue, string_bytes};
ghost use Rattle.std.specs.List.{All, list_all};
ghost use Rattle.crush_map.specs.Map.{Map, IsMap};
ghost use Rattle.crush_pool.specs.declared.states.DeviceState.{DeviceState as StateOfDevice};
ghost use Rattle.tenant_messages.specs.Reply.{success_status};
ghost use Rattle.tenant_messages.specs.declared.reply.SuccessStatus.{SuccessStatus as Status};
ghost use Rattle.tenant_state.specs.Ordered.{is_ascending};
ghost use Rattle.tenant_state.specs.State.{is_lower_device};
ghost use Rattle.tenant_state.specs.Valid.{is_device_state, is_receipt};
ghost use Rattle.table_schema.specs.Values.{state_row};
ghost use Rattle.table_schema.specs.Found.{version_values, receipt_values};
ghost use Rattle.tenant_tables.specs.Pages.{IsOfReceipt};
ghost use Rattle.tenant_tables.specs.Rows as spec;

use crush_choose::FULL;
use crush_map::Text;
use crush_map::limits::NUMBER_LIMIT;
use crush_pool::DeviceState;
use std::alloc::{AllocError, Global};
use std::rc::Rc;
use table_schema::rows::{ReceiptRow, VersionRow};
use table_schema::values::StateRow;
use tenant_messages::SuccessStatus;
use tenant_messages::limits::REQUEST_NUMBER_LIMIT;
use tenant_state::{Devices, Receipt, Version};

// ---- numbers

/// Returns `number` where it is one of 32 bits without a sign, and else `None`.
pub fn natural(number: i64) -> Option<u32>
    ensures some { IfSome result (λ n. number ≡ pos n) }
    ensures none { result ≡ None → (n : ℕ) → n < 2 ^ 32 → number ≢ pos n }
{
    u32::try_from(number).ok()
}

/// Returns the flag that `number` is where it is 0 or 1, and else `None`.
pub fn flag(number: i64) -> Option<bool>
    ensures some { IfSome result (λ b. number ≡ spec.flag b) }
    ensures none { result ≡ None → (b : Bool) → number ≢ spec.flag b }
{
    match number {
        0 => Some(false),
        1 => Some(true),
        _ => None,
    }
}

/// Returns the status of a receipt that `number` is, or `None` where it is none.
fn status(number: i64) -> Option<SuccessStatus>
    ensures some { IfSome result (λ s. number ≡ pos (success_status s)) }
    ensures none { result ≡ None → (s : Status) → number ≢ pos (success_status s) }
{
    match number {
        200 => Some(SuccessStatus::Done),
        201 => Some(SuccessStatus::Created),
        _ => None,
    }
}

// ---- versions

/// Returns the version of `row`, which has to have the number `number`. `None`, exactly where `row`
/// is no row of such a version. `Err(AllocError)`: an allocation failed.
fn version_from(
    alloc: Global,
    row: VersionRow,
    number: u64,
) -> Result<Option<Rc<Version>>, AllocError>
    ensures some { IfOk result (λ o. IfSome o (λ v. IsMap v.value × (version_values row ≡ spec.row_of_version number v.value))) }
    ensures none { IfOk result (λ o. o ≡ None → (m : Map) → IsMap m → version_values row ≢ spec.row_of_version number m) }
{
    if u64::try_from(row.version) != Ok(number) {
        return Ok(None);
    }
    match Version::from_text(alloc, row.text.as_str())? {
        Some(version) => Ok(Some(Rc::new(alloc, version)?)),
        None => Ok(None),
    }
}

/// Returns the versions 1, 2, .. of `rows`. `None`, exactly where they are the rows of no versions.
/// Each text is dropped as soon as its version is there. `Err(AllocError)`: an allocation failed.
pub fn versions_from(
    alloc: Global,
    rows: Vec<VersionRow>,
) -> Result<Option<Vec<Rc<Version>>>, AllocError>
    ensures some { IfOk result (λ o. IfSome o (λ versions. All IsMap (map (λ v. v.value) versions.items) × (map version_values rows.items ≡ spec.rows_of_versions 1 (map (λ v. v.value) versions.items)))) }
    ensures none { IfOk result (λ o. o ≡ None → (maps : List Map) → All IsMap maps → map version_values rows.items ≢ spec.rows_of_versions 1 maps) }
{
    let mut versions = Vec::with_capacity(alloc, rows.len())?;
    for row in rows {
        let number = versions.len() as u64 + 1;
        match version_from(alloc, row, number)? {
            Some(version) => versions.push(version)?,
            None => return Ok(None),
        }
    }
    Ok(Some(versions))
}

// ---- states of devices

/// Returns the state of a device of `row`. `None`, exactly where `row` is the row of no state.
fn state_from(row: StateRow) -> Option<DeviceState>
    ensures some { IfSome result (λ s. (is_device_state s ≡ true) × (state_row row ≡ spec.row_of_state s)) }
    ensures none { result ≡ None → (s : StateOfDevice) → is_device_state s ≡ true → state_row row ≢ spec.row_of_state s }
{
    let device = natural(row.device)?;
    let reweight = natural(row.reweight)?;
    let up = flag(row.up)?;
    if device > NUMBER_LIMIT || reweight > FULL {
        return None;
    }
    Some(DeviceState {
        device,
        reweight,
        up,
    })
}

/// Returns the states of devices of `rows`, in the order of the devices' ids. `None`, exactly where
/// they are the rows of no states. `Err(AllocError)`: an allocation failed.
pub fn states_from(alloc: Global, rows: Vec<StateRow>) -> Result<Option<Rc<Devices>>, AllocError>
    ensures some { IfOk result (λ o. IfSome o (λ d. (list_all is_device_state d.value ≡ true) × (is_ascending is_lower_device d.value ≡ true) × (map state_row rows.items ≡ map spec.row_of_state d.value))) }
    ensures none { IfOk result (λ o. o ≡ None → (states : List StateOfDevice) → list_all is_device_state states ≡ true → is_ascending is_lower_device states ≡ true → map state_row rows.items ≢ map spec.row_of_state states) }
{
    let mut states = Vec::with_capacity(alloc, rows.len())?;
    for row in rows {
        match state_from(row) {
            Some(state) => states.push(state)?,
            None => return Ok(None),
        }
    }
    match Devices::from_list(alloc, states)? {
        Some(devices) => Ok(Some(Rc::new(alloc, devices)?)),
        None => Ok(None),
    }
}

// ---- receipts

/// Returns whether `row` is that of a receipt.
pub fn is_receipt_row(row: &ReceiptRow) -> bool
    ensures { IsTrue result ↔ IsOfReceipt (receipt_values row.now) }
{
    match row.request.as_str().len() {
        1..=REQUEST_NUMBER_LIMIT => status(row.status).is_some(),
        _ => false,
    }
}

/// Returns the request number and the receipt of `row`. `None`, exactly where `row` is the row of
/// no receipt. `Err(AllocError)`: an allocation failed.
pub fn receipt_from(
    alloc: Global,
    row: ReceiptRow,
) -> Result<Option<(String, Rc<Receipt>)>, AllocError>
    ensures some { IfOk result (λ o. IfSome o (λ r. (is_receipt (string_bytes r.0, r.1.value) ≡ true) × (receipt_values row ≡ spec.row_of_receipt (string_bytes r.0, r.1.value)))) }
    ensures none { IfOk result (λ o. o ≡ None → (r : _) → is_receipt r ≡ true → receipt_values row ≢ spec.row_of_receipt r) }
{
    let Some(status) = status(row.status) else {
        return Ok(None);
    };
    let length = row.request.as_str().len();
    if length == 0 || length > REQUEST_NUMBER_LIMIT {
        return Ok(None);
    }
    let receipt = Receipt {
        path: Text::new(row.path),
        body: Text::new(row.body),
        status,
        reply: Text::new(row.reply),
    };
    Ok(Some((row.request, Rc::new(alloc, receipt)?)))
}

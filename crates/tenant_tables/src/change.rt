//! Accepted changes of tenants, written to the tables.

ghost use Rattle.std.specs.Prelude.{◌≡◌, ◌≢◌, ◌↔◌, ◌+◌, ◌<◌, ◌≤◌, ◌^◌, ◌++◌, ℕ, pos, List, [], ◌∷◌, take, length, Some, None, map, true, false, IfOk, IfSome, OnOk, OnErr, Err};
ghost use Rattle.sqlite.specs.Held.{state};
ghost use Rattle.table_schema.specs.sqlite_rules.specs.Lists.{Has};
ghost use Rattle.table_schema.specs.sqlite_value.specs.Order.{Row, column};
ghost use Rattle.table_schema.specs.sqlite_value.specs.declared.value.Value.TheVariants.{Int};
ghost use Rattle.sqlite.specs.State.{HasCleanDisk, Survives};
ghost use Rattle.tenant_messages.specs.Reply.{success_status};
ghost use Rattle.tenant_state.specs.Made.{made_of};
ghost use Rattle.tenant_state.specs.State.{NewExceptions, TenantState, after};
ghost use Rattle.crush_pool.specs.declared.limits.TheConstants.{PAIR_LIMIT};
ghost use Rattle.table_schema.specs.Found as read;
ghost use Rattle.tenant_tables.specs.Change as writes;
ghost use Rattle.table_schema.specs.Values as rows;
ghost use Rattle.tenant_tables.specs.Change.{Accepts, IsNumber};
ghost use Rattle.tenant_tables.specs.Rows as spec;
ghost use Rattle.tenant_tables.specs.Changes.{IsChangeable, Turns};
ghost use Rattle.tenant_tables.specs.Commits.{HasPoolsFor, numbers_of, rows_with_made, with_new_pairs};

use crate::commit::CommitHead;
use crate::tables::TenantTables;
use crush_map::Text;
use crush_pool::{DeviceState, Exceptions, Pair, Pool};
use sqlite::Alter;
use std::alloc::{AllocError, Global};
use table_schema::find::Tenant;
use table_schema::rows::PoolRow;
use table_schema::values::{ExceptionRow, PoolValues, ReceiptValues, StateRow};
use tenant_messages::{StoreFault, SuccessStatus};
use tenant_state::{Change, Product, Receipt};

// ---- numbers

/// Returns the number of the tenant's next epoch, or `None` where it doesn't fit 64 bits.
fn epoch_after(tenant: &Tenant) -> Option<i64>
    ensures some { IfSome result (λ next. (n : ℕ) → tenant.now.epoch ≡ pos n → next ≡ pos (n + 1)) }
    ensures none { result ≡ None → (n : ℕ) → n < 2 ^ 32 → tenant.now.epoch ≢ pos n }
{
    tenant.epoch.checked_add(1)
}

/// Returns the number of the version after `versions` versions, or `None` where it doesn't fit 64
/// bits.
fn version_after(versions: u64) -> Option<i64>
    ensures some { IfSome result (λ number. number ≡ pos (versions + 1)) }
    ensures none { result ≡ None → 2 ^ 32 ≤ versions }
{
    i64::try_from(versions.checked_add(1)?).ok()
}

/// Returns 1 for `true`, and 0 for `false`.
fn flag(flag: bool) -> i64
    ensures { result ≡ spec.flag flag }
{
    if flag { 1 } else { 0 }
}

/// Returns the number of `status`.
fn status(status: SuccessStatus) -> i64
    ensures { result ≡ pos (success_status status) }
{
    match status {
        SuccessStatus::Done => 200,
        SuccessStatus::Created => 201,
    }
}

// ---- values of rows

/// Returns the values of the row of a device's state.
fn state_values(state: &DeviceState) -> StateRow
    ensures { result ≡ numbers_of state.now }
{
    StateRow {
        device: i64::from(state.device),
        reweight: i64::from(state.reweight),
        up: flag(state.up),
    }
}

/// Returns the values of the rows of states of devices, in their order. `Err(AllocError)`: an
/// allocation failed.
fn all_state_values(alloc: Global, states: &[DeviceState]) -> Result<Vec<StateRow>, AllocError>
    ensures { IfOk result (λ values. values.items ≡ map numbers_of states.now) }
{
    states.iter().map(state_values).collect(alloc)
}

/// Returns the values of the row of a pool that has no exceptions.
fn pool_values(pool: &Pool) -> PoolValues<'_>
    ensures { rows.pool_row result ≡ spec.row_with_count pool.now (pos 0) }
{
    let parts = pool.parts();
    PoolValues {
        id: i64::from(parts.id),
        name: parts.name.as_str(),
        erasure: flag(parts.erasure),
        size: i64::from(parts.size),
        rule: i64::from(parts.rule),
        pg_num: i64::from(parts.pg_num),
        pgp_num: i64::from(parts.pgp_num),
        hashpspool: flag(parts.hashpspool),
        pairs: 0,
    }
}

/// Returns the values of the row of a pool that was read, with `pairs` as the number of exceptions.
fn values_with(row: &PoolRow, pairs: i64) -> PoolValues<'_>
    ensures { rows.pool_row result ≡ take 8 (read.pool_values row.now) ++ Int pairs ∷ [] }
{
    PoolValues {
        id: row.id,
        name: row.name.as_str(),
        erasure: row.erasure,
        size: row.size,
        rule: row.rule,
        pg_num: row.pg_num,
        pgp_num: row.pgp_num,
        hashpspool: row.hashpspool,
        pairs,
    }
}

/// Returns the row of the pool with `id`, or `None` where there is none.
fn row_with(rows: Vec<PoolRow>, id: u32) -> Option<PoolRow>
    ensures some { IfSome result (λ row. Has (map read.pool_values rows.items) (read.pool_values row) × (row.id ≡ pos id)) }
    ensures none { result ≡ None → (row : Row) → Has (map read.pool_values rows.items) row → column row 0 ≢ Int (pos id) }
{
    for row in rows {
        if row.id == i64::from(id) {
            return Some(row);
        }
    }
    None
}

/// Returns the values of the row of `pair`, at `place` of the pool with the id `pool`.
fn pair_values(pool: u32, place: u32, pair: &Pair) -> ExceptionRow
    ensures { rows.exception_row result ≡ spec.row_of_pair pool place pair.now }
{
    ExceptionRow {
        pool: i64::from(pool),
        place: i64::from(place),
        group: i64::from(pair.group),
        from: i64::from(pair.from),
        to: i64::from(pair.to),
    }
}

/// Returns the values of the rows of `pairs`, at the places 0, 1, .. of the pool with the id
/// `pool`. `Err(AllocError)`: an allocation failed.
fn all_pair_values(
    alloc: Global,
    pool: u32,
    pairs: &[Pair],
) -> Result<Vec<ExceptionRow>, AllocError>
    requires { length pairs.now ≤ PAIR_LIMIT }
    ensures { IfOk result (λ values. map rows.exception_row values.items ≡ spec.rows_of_pairs pool 0 pairs.now) }
{
    let mut values = Vec::with_capacity(alloc, pairs.len())?;
    for place in 0..pairs.len() {
        values.push(pair_values(pool, place as u32, &pairs[place]))?;
    }
    Ok(values)
}

/// Returns the values of the row of a receipt.
fn receipt_values<'a>(number: &'a Text, receipt: &'a Receipt) -> ReceiptValues<'a>
    ensures { rows.receipt_row result ≡ spec.row_of_receipt (number.now, receipt.now) }
{
    ReceiptValues {
        request: number.as_str(),
        path: receipt.path.as_str(),
        body: receipt.body.as_str(),
        status: status(receipt.status),
        reply: receipt.reply.as_str(),
    }
}

// ---- changes

/// Writes `states`, each in place of an earlier one of its device, with what each change writes.
fn write_states<'a, S: Alter>(
    alloc: Global,
    tables: &mut TenantTables<S>,
    accepted: &CommitHead<'a>,
    states: &[DeviceState],
) -> Result<(), StoreFault>
    requires live { tables.old.1 ≡ false }
    requires there { HasCleanDisk (state S.Store tables.old.0) → IsNumber (state S.Store tables.old.0).now.trees accepted.now.id }
    ensures done { HasCleanDisk (state S.Store tables.new.0) → OnOk result (Accepts accepted.now (writes.with_states (map numbers_of states.now)) (state S.Store tables.old.0).now.trees (state S.Store tables.new.0).now.trees) }
    ensures kept { HasCleanDisk (state S.Store tables.new.0) → tables.new.1 ≡ false → OnErr result ((state S.Store tables.new.0).now ≡ (state S.Store tables.old.0).now) }
    ensures latches { tables.new.1 ≡ true ↔ result ≡ Err StoreFault.Failed }
    ensures rows { result ≢ Err StoreFault.Damaged }
    ensures crash { Survives (state S.Store tables.old.0) (state S.Store tables.new.0) (Accepts accepted.now (writes.with_states (map numbers_of states.now)) (state S.Store tables.old.0).now.trees) }
{
    let values = all_state_values(alloc, states)?;
    tables.commit_states(accepted, &values)
}

/// Writes `exceptions` of the pool with the id `pool`, in place of the earlier ones, with what each
/// change writes. The tenant has to have the pool.
fn write_exceptions<S: Alter>(
    alloc: Global,
    tables: &mut TenantTables<S>,
    accepted: CommitHead<'_>,
    pool: u32,
    exceptions: &Exceptions,
) -> Result<(), StoreFault>
    requires live { tables.old.1 ≡ false }
    requires there { HasCleanDisk (state S.Store tables.old.0) → IsNumber (state S.Store tables.old.0).now.trees accepted.id }
    requires suits { HasCleanDisk (state S.Store tables.old.0) → HasPoolsFor (state S.Store tables.old.0).now.trees accepted.id (NewExceptions pool exceptions.now) }
    ensures done { HasCleanDisk (state S.Store tables.new.0) → OnOk result (Accepts accepted.entry (with_new_pairs pool exceptions.now) (state S.Store tables.old.0).now.trees (state S.Store tables.new.0).now.trees) }
    ensures kept { HasCleanDisk (state S.Store tables.new.0) → tables.new.1 ≡ false → OnErr result ((state S.Store tables.new.0).now ≡ (state S.Store tables.old.0).now) }
    ensures latches { tables.new.1 ≡ true ↔ result ≡ Err StoreFault.Failed }
    ensures rows { HasCleanDisk (state S.Store tables.new.0) → result ≢ Err StoreFault.Damaged }
    ensures crash { Survives (state S.Store tables.old.0) (state S.Store tables.new.0) (Accepts accepted.entry (with_new_pairs pool exceptions.now) (state S.Store tables.old.0).now.trees) }
{
    let rows: Vec<PoolRow> = tables.list_of(accepted.id)?;
    let Some(row) = row_with(rows, pool) else {
        return Err(StoreFault::Damaged);
    };
    let pairs = exceptions.pairs();
    let values = all_pair_values(alloc, pool, pairs)?;
    let pool = values_with(&row, values.len() as i64);
    tables.commit_exceptions(&accepted, &pool, &values)
}

/// Writes `made`, with what each change writes. A version gets the number `number`.
fn write_made<'a, S: Alter>(
    alloc: Global,
    tables: &mut TenantTables<S>,
    accepted: &CommitHead<'a>,
    number: i64,
    made: &'a Product,
) -> Result<(), StoreFault>
    requires live { tables.old.1 ≡ false }
    requires there { HasCleanDisk (state S.Store tables.old.0) → IsNumber (state S.Store tables.old.0).now.trees accepted.now.id }
    requires suits { HasCleanDisk (state S.Store tables.old.0) → HasPoolsFor (state S.Store tables.old.0).now.trees accepted.now.id (made_of made.now) }
    ensures done { HasCleanDisk (state S.Store tables.new.0) → OnOk result (Accepts accepted.now (rows_with_made number (made_of made.now)) (state S.Store tables.old.0).now.trees (state S.Store tables.new.0).now.trees) }
    ensures kept { HasCleanDisk (state S.Store tables.new.0) → tables.new.1 ≡ false → OnErr result ((state S.Store tables.new.0).now ≡ (state S.Store tables.old.0).now) }
    ensures latches { tables.new.1 ≡ true ↔ result ≡ Err StoreFault.Failed }
    ensures rows { HasCleanDisk (state S.Store tables.new.0) → result ≢ Err StoreFault.Damaged }
    ensures crash { Survives (state S.Store tables.old.0) (state S.Store tables.new.0) (Accepts accepted.now (rows_with_made number (made_of made.now)) (state S.Store tables.old.0).now.trees) }
{
    match made {
        Product::Version(version) => tables.commit_version(accepted, number, version.text()),
        Product::States(states) => write_states(alloc, tables, accepted, states.as_slice()),
        Product::Pool(pool) => {
            let values = pool_values(pool.as_ref());
            tables.commit_pool(accepted, &values)
        }
        Product::Exceptions(pool, exceptions) => {
            let exceptions = exceptions.exceptions();
            write_exceptions(alloc, tables, *accepted, *pool, exceptions)
        }
        Product::NoPool(pool) => tables.commit_no_pool(accepted, i64::from(*pool)),
    }
}

/// Writes an accepted change of `tenant`, which has `versions` versions, in one transaction.
///
/// `Err(StoreFault::NoMemory)`, `Err(StoreFault::Full)`: nothing is changed.
/// `Err(StoreFault::Failed)`: the tables are latched.
pub fn write_change<S: Alter>(
    alloc: Global,
    tables: &mut TenantTables<S>,
    tenant: &Tenant,
    versions: u64,
    change: &Change,
) -> Result<(), StoreFault>
    requires live { tables.old.1 ≡ false }
    requires there { HasCleanDisk (state S.Store tables.old.0) → (name : List ℕ) × (s : TenantState) × IsChangeable (state S.Store tables.old.0).now.trees name s tenant.now versions change.now }
    ensures done { HasCleanDisk (state S.Store tables.new.0) → (name : List ℕ) (s : TenantState) → IsChangeable (state S.Store tables.old.0).now.trees name s tenant.now versions change.now
        → OnOk result (Turns name (Some (after change.now s)) (state S.Store tables.old.0).now.trees (state S.Store tables.new.0).now.trees) }
    ensures kept { HasCleanDisk (state S.Store tables.new.0) → tables.new.1 ≡ false → OnErr result ((state S.Store tables.new.0).now ≡ (state S.Store tables.old.0).now) }
    ensures latches { tables.new.1 ≡ true ↔ result ≡ Err StoreFault.Failed }
    ensures rows { HasCleanDisk (state S.Store tables.new.0) → result ≢ Err StoreFault.Damaged }
    ensures crash { Survives (state S.Store tables.old.0) (state S.Store tables.new.0) (λ db. (name : List ℕ) (s : TenantState) → IsChangeable (state S.Store tables.old.0).now.trees name s tenant.now versions change.now
        → Turns name (Some (after change.now s)) (state S.Store tables.old.0).now.trees db) }
{
    let Some(epoch) = epoch_after(tenant) else {
        return Err(StoreFault::Damaged);
    };
    let Some(number) = version_after(versions) else {
        return Err(StoreFault::Damaged);
    };
    let receipt = receipt_values(&change.number, change.receipt.as_ref());
    let accepted = CommitHead {
        id: tenant.id,
        epoch,
        receipt,
    };
    write_made(alloc, tables, &accepted, number, &change.made)
}

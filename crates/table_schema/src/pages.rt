//! The receipts of a tenant, a page at a time.
//!
//! A body and a reply may have a megabyte each, so a page is short. One row more than a page is
//! read: it shows that the rows that follow are above the page.

ghost use Rattle.std.specs.Prelude.{◌≡◌, ◌≢◌, ◌⊎◌, map, false, IfOk, IfErr, Err, option_map};
ghost use Rattle.std.specs.List.{AllByRecursion};
ghost use Rattle.sqlite.specs.Held.{state};
ghost use Rattle.sqlite.specs.State.{HasCleanDisk};
ghost use Rattle.table_schema.specs.Layout.{receipts_table};
ghost use Rattle.table_schema.specs.Holds.{of_tenant};
ghost use Rattle.table_schema.specs.Found.{AreFirst, Begins, IsPageOf, IsRising, Lists, rows_behind, receipt_values, IsReceiptRow};
ghost use Rattle.table_schema.specs.Ready.{IsReady};
ghost use Rattle.table_schema.specs.Reads.{Reads};

use crate::ask::ask;
use crate::fault::ReadFault;
use crate::read::rising_in;
use crate::rows::ReceiptRow;
use sqlite::types::ValueRef;
use sqlite::{Alter, Connection, Row};
use std::alloc::Global;

/// The number of receipts on a page.
pub const PAGE: usize = 16;

/// Reads the first 17 receipts of the tenant whose requests are above `after`, or its first 17
/// where that is `None`, or all of those where there are fewer, by their requests.
fn rows_of_page<S: Alter>(
    conn: &mut Connection<S>,
    id: i64,
    after: Option<&str>,
) -> Result<Vec<Row>, ReadFault>
    requires autocommit { conn.old.in_transaction ≡ false }
    requires ready { HasCleanDisk (state S.Store conn.old) → IsReady (state S.Store conn.old) }
    ensures found { HasCleanDisk (state S.Store conn.new) → IfOk result (λ rows. AreFirst 17 (rows_behind (option_map (λ t. t.now) after.entry) (of_tenant receipts_table id (state S.Store conn.old).now.trees)) rows.items) }
    ensures rows { result ≢ Err ReadFault.Damaged }
    ensures reads { Reads S.Store result conn.old conn.new }
{
    match after {
        None => ask(
            conn,
            "SELECT request, path, body, status, reply FROM receipts WHERE tenant = ?1 ORDER BY request LIMIT 17",
            &[ValueRef::Int(id)],
        ),
        Some(after) => ask(
            conn,
            "SELECT request, path, body, status, reply FROM receipts WHERE tenant = ?1 AND request > ?2 ORDER BY request LIMIT 17",
            &[ValueRef::Int(id), ValueRef::Text(after.as_bytes())],
        ),
    }
}

/// Returns the page that `rows` begin with. The last row is dropped where there are more than a
/// page.
///
/// `Err(ReadFault::Damaged)`: the requests do not rise, or a row is none that this service writes.
fn page_of(alloc: Global, rows: &[Row]) -> Result<Vec<ReceiptRow>, ReadFault>
    ensures page { IfOk result (λ page. IsPageOf rows.now (map receipt_values page.items)) }
    ensures damaged { result ≡ Err ReadFault.Damaged → AllByRecursion IsReceiptRow rows.now → ¬ IsRising rows.now }
    ensures faults { IfErr result (λ fault. (fault ≡ ReadFault.NoMemory) ⊎ (fault ≡ ReadFault.Damaged)) }
{
    let mut page: Vec<ReceiptRow> = rising_in(alloc, rows)?;
    if page.len() > PAGE {
        page.pop();
    }
    Ok(page)
}

/// Reads the first receipts of the tenant whose requests are above `after`, or its first receipts
/// where that is `None`, in the order of their requests' bytes: a page, or fewer where there are no
/// more.
///
/// `Err(ReadFault::Damaged)`: a request occurs twice, or a row is none that this service writes.
/// `Err(ReadFault::NoMemory)`: nothing is changed.
pub fn receipts_behind<S: Alter>(
    alloc: Global,
    conn: &mut Connection<S>,
    id: i64,
    after: Option<&str>,
) -> Result<Vec<ReceiptRow>, ReadFault>
    requires autocommit { conn.old.in_transaction ≡ false }
    requires ready { HasCleanDisk (state S.Store conn.old) → IsReady (state S.Store conn.old) }
    ensures found { HasCleanDisk (state S.Store conn.new) → IfOk result (λ page. Begins 16 (rows_behind (option_map (λ t. t.now) after.entry) (of_tenant receipts_table id (state S.Store conn.old).now.trees)) (map receipt_values page.items)) }
    ensures damaged { HasCleanDisk (state S.Store conn.new) → result ≡ Err ReadFault.Damaged → (list : _) → AllByRecursion IsReceiptRow list → ¬ Lists (rows_behind (option_map (λ t. t.now) after.entry) (of_tenant receipts_table id (state S.Store conn.old).now.trees)) list }
    ensures reads { Reads S.Store result conn.old conn.new }
{
    let rows = rows_of_page(conn, id, after)?;
    page_of(alloc, &rows)
}

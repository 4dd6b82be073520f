//! The lists of a tenant, and a receipt of it.

ghost use Rattle.std.specs.Prelude.{◌≡◌, ◌≢◌, [], ◌∷◌, map, false, IfOk, Err};
ghost use Rattle.std.specs.List.{AllByRecursion};
ghost use Rattle.sqlite.specs.Held.{state};
ghost use Rattle.sqlite.specs.State.{HasCleanDisk};
ghost use Rattle.table_schema.specs.Holds.{of_tenant};
ghost use Rattle.table_schema.specs.Found.{ListsBy, receipts_with, AreReceipt, IsReceiptRow};
ghost use Rattle.table_schema.specs.Ready.{IsReady};
ghost use Rattle.table_schema.specs.Reads.{Reads};

use crate::ask::ask;
use crate::fault::ReadFault;
use crate::read::{one_of, rising_in};
use crate::rows::{ListedRow, ReceiptRow};
use sqlite::types::ValueRef;
use sqlite::{Alter, Connection};
use std::alloc::Global;

/// Reads the tenant's list of `T`s, whose keys rise strictly.
///
/// `Err(ReadFault::Damaged)`: a key occurs twice, or a row is none that this service writes.
/// `Err(ReadFault::NoMemory)`: nothing is changed.
pub fn list_of<T: ListedRow + Drop, S: Alter>(
    alloc: Global,
    conn: &mut Connection<S>,
    id: i64,
) -> Result<Vec<T>, ReadFault>
    requires autocommit { conn.old.in_transaction ≡ false }
    requires ready { HasCleanDisk (state S.Store conn.old) → IsReady (state S.Store conn.old) }
    ensures found { HasCleanDisk (state S.Store conn.new) → IfOk result (λ list. ListsBy T.before (of_tenant T.table id (state S.Store conn.old).now.trees) (map T.values list.items)) }
    ensures damaged { HasCleanDisk (state S.Store conn.new) → result ≡ Err ReadFault.Damaged → (list : _) → AllByRecursion T.is_one list → ¬ ListsBy T.before (of_tenant T.table id (state S.Store conn.old).now.trees) list }
    ensures reads { Reads S.Store result conn.old conn.new }
{
    let rows = ask(conn, T::select(), &[ValueRef::Int(id)])?;
    rising_in(alloc, &rows)
}

/// Reads the tenant's receipt of the request, or `None` where there is none.
///
/// `Err(ReadFault::Damaged)`: there are several, or the row is none that this service writes.
/// `Err(ReadFault::NoMemory)`: nothing is changed.
pub fn receipt_of<S: Alter>(
    conn: &mut Connection<S>,
    id: i64,
    request: &str,
) -> Result<Option<ReceiptRow>, ReadFault>
    requires autocommit { conn.old.in_transaction ≡ false }
    requires ready { HasCleanDisk (state S.Store conn.old) → IsReady (state S.Store conn.old) }
    ensures found { HasCleanDisk (state S.Store conn.new) → IfOk result (AreReceipt (receipts_with (state S.Store conn.old).now.trees id request.now)) }
    ensures damaged { HasCleanDisk (state S.Store conn.new) → result ≡ Err ReadFault.Damaged → (receipts_with (state S.Store conn.old).now.trees id request.now ≢ []) × ((row : _) → IsReceiptRow row → receipts_with (state S.Store conn.old).now.trees id request.now ≢ row ∷ []) }
    ensures reads { Reads S.Store result conn.old conn.new }
{
    let rows = ask(
        conn,
        "SELECT request, path, body, status, reply FROM receipts WHERE tenant = ?1 AND request = ?2",
        &[ValueRef::Int(id), ValueRef::Text(request.as_bytes())],
    )?;
    one_of(&rows)
}

//! Queries, which leave the rows as they are.

ghost use Rattle.std.specs.Prelude.{◌≡◌, ◌≢◌, false, IfOk, Err};
ghost use Rattle.sqlite.specs.Held.{state};
ghost use Rattle.sqlite.specs.State.{HasCleanDisk, Shown};
ghost use Rattle.sqlite.specs.Values.{bound};
ghost use Rattle.table_schema.specs.Ready.{IsReady};
ghost use Rattle.table_schema.specs.Asked.{IsAnswered};
ghost use Rattle.table_schema.specs.Reads.{Reads};

use crate::fault::{ReadFault, read_fault};
use crate::refuse::look_after;
use sqlite::types::ValueRef;
use sqlite::{Alter, Connection, Row};

/// Runs the query `sql` with the values `params`, and returns the rows that it answers.
///
/// `Err(ReadFault::NoMemory)`: nothing is changed.
pub fn ask<S: Alter>(
    conn: &mut Connection<S>,
    sql: &str,
    params: &[ValueRef<'_>],
) -> Result<Vec<Row>, ReadFault>
    requires autocommit { conn.old.in_transaction ≡ false }
    requires ready { HasCleanDisk (state S.Store conn.old) → IsReady (state S.Store conn.old) }
    requires answered { IsAnswered sql.now (bound params.now) }
    ensures shown { HasCleanDisk (state S.Store conn.new) → IfOk result (λ rows. Shown sql.now (bound params.now) (state S.Store conn.old) (state S.Store conn.new) rows.items) }
    ensures rows { result ≢ Err ReadFault.Damaged }
    ensures reads { Reads S.Store result conn.old conn.new }
{
    match conn.query_all(sql, params) {
        Ok(rows) => Ok(rows),
        Err(error) => Err(read_fault(look_after(conn, error))),
    }
}

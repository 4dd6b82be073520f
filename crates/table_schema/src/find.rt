//! A tenant by its name.

ghost use Rattle.std.specs.Prelude.{◌≡◌, ◌≢◌, ◌⊎◌, ℤ, [], ◌∷◌, false, IfOk, IfErr, IfSome, None, Err};
ghost use Rattle.sqlite.specs.Held.{state};
ghost use Rattle.sqlite.specs.State.{HasCleanDisk};
ghost use Rattle.sqlite_value.specs.declared.value.Value.TheVariants.{Int};
ghost use Rattle.table_schema.specs.Found.{Names};
ghost use Rattle.table_schema.specs.Ready.{IsReady};
ghost use Rattle.table_schema.specs.Reads.{Reads};

use crate::ask::ask;
use crate::fault::ReadFault;
use crate::rows::int;
use sqlite::types::ValueRef;
use sqlite::{Alter, Connection, Row};

/// A row of `tenants`.
#[derive(Clone, Copy)]
pub struct Tenant {
    pub id: i64,
    pub epoch: i64,
}

/// Returns the tenant whose number and epoch are the one row, or `None` where there is no row.
///
/// `Err(ReadFault::Damaged)`: there are several rows, or the row is not two integers.
fn tenant_in(rows: &[Row]) -> Result<Option<Tenant>, ReadFault>
    ensures some { IfOk result (λ o. IfSome o (λ t. rows.now ≡ (Int t.id ∷ Int t.epoch ∷ []) ∷ [])) }
    ensures none { IfOk result (λ o. o ≡ None → rows.now ≡ []) }
    ensures damaged { result ≡ Err ReadFault.Damaged → (rows.now ≢ []) × ((id epoch : ℤ) → rows.now ≢ (Int id ∷ Int epoch ∷ []) ∷ []) }
    ensures faults { IfErr result (λ fault. (fault ≡ ReadFault.NoMemory) ⊎ (fault ≡ ReadFault.Damaged)) }
{
    match rows {
        [] => Ok(None),
        [row] if row.column_count() == 2 => {
            let id = int(row, 0)?;
            let epoch = int(row, 1)?;
            Ok(Some(Tenant { id, epoch }))
        }
        _ => Err(ReadFault::Damaged),
    }
}

/// Reads the tenant with the name, or `None` where there is none.
///
/// `Err(ReadFault::Damaged)`: there are several, or the row is none that this service writes.
/// `Err(ReadFault::NoMemory)`: nothing is changed.
pub fn find<S: Alter>(conn: &mut Connection<S>, name: &str) -> Result<Option<Tenant>, ReadFault>
    requires autocommit { conn.old.in_transaction ≡ false }
    requires ready { HasCleanDisk (state S.Store conn.old) → IsReady (state S.Store conn.old) }
    ensures found { HasCleanDisk (state S.Store conn.new) → IfOk result (Names (state S.Store conn.old).now.trees name.now) }
    ensures damaged { HasCleanDisk (state S.Store conn.new) → result ≡ Err ReadFault.Damaged → (tenant : _) → ¬ Names (state S.Store conn.old).now.trees name.now tenant }
    ensures reads { Reads S.Store result conn.old conn.new }
{
    let rows = ask(
        conn,
        "SELECT id, epoch FROM tenants WHERE name = ?1",
        &[ValueRef::Text(name.as_bytes())],
    )?;
    tenant_in(&rows)
}

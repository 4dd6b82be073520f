//! Several writes in one transaction.

ghost use Rattle.std.specs.Prelude.{◌≡◌, ◌≢◌, false, OnOk, OnErr, Err, IsTrue};
ghost use Rattle.sqlite.specs.Effect.{Database};
ghost use Rattle.sqlite.specs.Held.{state};
ghost use Rattle.sqlite.specs.State.{HasCleanDisk, Survives, ExecutesInside};
ghost use Rattle.tenant_tables.specs.Run.{AreSound, Makes, params_of, text_of};
ghost use Rattle.table_schema.specs.Ready.{Keeps, Commits, IsReady, Refuses};

use sqlite::types::ValueRef;
use sqlite::{Alter, Connection, Error, Transaction};
use table_schema::refuse::refusal;
use table_schema::values::{ExceptionRow, PoolValues, ReceiptValues, StateRow};
use tenant_messages::StoreFault;

/// A statement that writes, with its values. `id` is the number of a tenant.
#[derive(Clone, Copy)]
pub enum Write<'a> {
    /// A statement without parameters.
    Plain(&'static str),
    Create {
        name: &'a str,
    },
    Remove {
        id: i64,
    },
    Raise {
        id: i64,
        epoch: i64,
    },
    AddVersion {
        id: i64,
        version: i64,
        text: &'a str,
    },
    ClearState {
        id: i64,
        device: i64,
    },
    AddState {
        id: i64,
        state: StateRow,
    },
    AddPool {
        id: i64,
        pool: PoolValues<'a>,
    },
    RemovePool {
        id: i64,
        pool: i64,
    },
    AddException {
        id: i64,
        exception: ExceptionRow,
    },
    ClearExceptions {
        id: i64,
        pool: i64,
    },
    AddReceipt {
        id: i64,
        receipt: ReceiptValues<'a>,
    },
}

impl Write<'_> {
    /// Runs the statement in the transaction.
    fn run<S: Alter>(&self, tx: &mut Transaction<'_, S>) -> Result<usize, Error>
        ensures same_reference { tx.new.conn.ghost_name ≡ tx.old.conn.ghost_name }
        ensures runs { HasCleanDisk (state S.Store tx.new.conn.now) → IsTrue (state S.Store tx.old.conn.now).in_transaction → ExecutesInside 0 (text_of self.now) (params_of self.now) (state S.Store tx.old.conn.now) (state S.Store tx.new.conn.now) result }
        ensures survives { Survives (state S.Store tx.old.conn.now) (state S.Store tx.new.conn.now) (λ _. ⊥) }
    {
        match *self {
            Write::Plain(sql) => tx.execute(sql, &[]),
            Write::Create { name } => tx.execute(
                "INSERT INTO tenants (name, epoch) VALUES (?1, 0)",
                &[ValueRef::Text(name.as_bytes())],
            ),
            Write::Remove { id } => {
                tx.execute("DELETE FROM tenants WHERE id = ?1", &[ValueRef::Int(id)])
            }
            Write::Raise { id, epoch } => tx.execute(
                "UPDATE tenants SET epoch = ?2 WHERE id = ?1",
                &[ValueRef::Int(id), ValueRef::Int(epoch)],
            ),
            Write::AddVersion { id, version, text } => tx.execute(
                "INSERT INTO maps (tenant, version, text) VALUES (?1, ?2, ?3)",
                &[
                    ValueRef::Int(id),
                    ValueRef::Int(version),
                    ValueRef::Text(text.as_bytes()),
                ],
            ),
            Write::ClearState { id, device } => tx.execute(
                "DELETE FROM devices WHERE tenant = ?1 AND device = ?2",
                &[ValueRef::Int(id), ValueRef::Int(device)],
            ),
            Write::AddState { id, state } => tx.execute(
                "INSERT INTO devices (tenant, device, reweight, up) VALUES (?1, ?2, ?3, ?4)",
                &[
                    ValueRef::Int(id),
                    ValueRef::Int(state.device),
                    ValueRef::Int(state.reweight),
                    ValueRef::Int(state.up),
                ],
            ),
            Write::AddPool { id, pool } => tx.execute(
                "INSERT INTO pools_2 VALUES (?1, ?2, ?3, ?4, ?5, ?6, ?7, ?8, ?9, ?10)",
                &[
                    ValueRef::Int(id),
                    ValueRef::Int(pool.id),
                    ValueRef::Text(pool.name.as_bytes()),
                    ValueRef::Int(pool.erasure),
                    ValueRef::Int(pool.size),
                    ValueRef::Int(pool.rule),
                    ValueRef::Int(pool.pg_num),
                    ValueRef::Int(pool.pgp_num),
                    ValueRef::Int(pool.hashpspool),
                    ValueRef::Int(pool.pairs),
                ],
            ),
            Write::RemovePool { id, pool } => tx.execute(
                "DELETE FROM pools_2 WHERE tenant = ?1 AND id = ?2",
                &[ValueRef::Int(id), ValueRef::Int(pool)],
            ),
            Write::AddException { id, exception } => tx.execute(
                "INSERT INTO exceptions VALUES (?1, ?2, ?3, ?4, ?5, ?6)",
                &[
                    ValueRef::Int(id),
                    ValueRef::Int(exception.pool),
                    ValueRef::Int(exception.place),
                    ValueRef::Int(exception.group),
                    ValueRef::Int(exception.from),
                    ValueRef::Int(exception.to),
                ],
            ),
            Write::ClearExceptions { id, pool } => tx.execute(
                "DELETE FROM exceptions WHERE tenant = ?1 AND pool = ?2",
                &[ValueRef::Int(id), ValueRef::Int(pool)],
            ),
            Write::AddReceipt { id, receipt } => tx.execute(
                "INSERT INTO receipts (tenant, request, path, body, status, reply) VALUES (?1, ?2, ?3, ?4, ?5, ?6)",
                &[
                    ValueRef::Int(id),
                    ValueRef::Text(receipt.request.as_bytes()),
                    ValueRef::Text(receipt.path.as_bytes()),
                    ValueRef::Text(receipt.body.as_bytes()),
                    ValueRef::Int(receipt.status),
                    ValueRef::Text(receipt.reply.as_bytes()),
                ],
            ),
        }
    }
}

/// Runs the writes in one transaction, all of them or none.
///
/// `Err`: nothing is committed.
pub fn run_all<S: Alter>(conn: &mut Connection<S>, writes: &[Write<'_>]) -> Result<(), Error>
    requires { conn.old.in_transaction ≡ false }
    ensures done { HasCleanDisk (state S.Store conn.new) → OnOk result ((db : _) × Makes S.Store writes.now conn.old db × Commits (state S.Store conn.old) (state S.Store conn.new) db) }
    ensures alone { HasCleanDisk (state S.Store conn.new) → OnOk result ((db : _) → (state S.Store conn.new).may_leave db → db ≡ (state S.Store conn.new).committed.trees) }
    ensures kept { HasCleanDisk (state S.Store conn.new) → OnErr result (Keeps (state S.Store conn.old) (state S.Store conn.new)) }
    ensures crash { Survives (state S.Store conn.old) (state S.Store conn.new) (λ trees. (db : _) × Makes S.Store writes.now conn.old db × (trees ≡ db.trees)) }
    ensures ended { conn.new.in_transaction ≡ false }
{
    let mut tx = conn.transaction();
    for write in writes {
        write.run(&mut tx)?;
    }
    tx.commit()
}

/// Runs the writes in one transaction, all of them or none. The writes have to leave this service's
/// tables sound.
///
/// `Err(StoreFault::NoMemory)`, `Err(StoreFault::Full)`: nothing is changed.
pub fn write_all<S: Alter>(conn: &mut Connection<S>, writes: &[Write<'_>]) -> Result<(), StoreFault>
    requires autocommit { conn.old.in_transaction ≡ false }
    requires ready { HasCleanDisk (state S.Store conn.old) → IsReady (state S.Store conn.old) }
    requires sound { HasCleanDisk (state S.Store conn.old) → (db : Database) → Makes S.Store writes.now conn.old db → AreSound db }
    ensures done { HasCleanDisk (state S.Store conn.new) → OnOk result ((db : _) × Makes S.Store writes.now conn.old db × Commits (state S.Store conn.old) (state S.Store conn.new) db) }
    ensures ready { HasCleanDisk (state S.Store conn.new) → OnOk result (IsReady (state S.Store conn.new)) }
    ensures refused { HasCleanDisk (state S.Store conn.new) → result ≢ Err StoreFault.Failed → OnErr result (Refuses (state S.Store conn.old) (state S.Store conn.new)) }
    ensures rows { result ≢ Err StoreFault.Damaged }
    ensures crash { Survives (state S.Store conn.old) (state S.Store conn.new) (λ trees. (db : _) × Makes S.Store writes.now conn.old db × (trees ≡ db.trees)) }
    ensures ended { conn.new.in_transaction ≡ false }
{
    match run_all(conn, writes) {
        Ok(()) => Ok(()),
        Err(error) => Err(refusal(conn, error)),
    }
}

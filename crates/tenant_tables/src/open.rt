//! The tables are made where there are none, and else their version is tested. Those of schema 1
//! are replaced.
//!
//! What failed is reported by its error alone, with no look at the connection: after a failed
//! opening it isn't used, so it is all the same whether it is open.

ghost use Rattle.std.specs.Prelude.{pos, [], ◌∷◌, map, IsPermutation, ◌≡◌, ◌≢◌, ◌⊎◌, ◌↔◌, false, IfOk, IfErr, OnOk, OnErr, Err, IsTrue};
ghost use Rattle.sqlite.specs.Held.{state};
ghost use Rattle.table_schema.specs.sqlite_value.specs.declared.value.Value.TheVariants.{Int};
ghost use Rattle.sqlite.specs.State.{HasCleanDisk, IsLive, IsUnchanged, Survives};
ghost use Rattle.table_schema.specs.sqlite_value.specs.Order.{column};
ghost use Rattle.sqlite.specs.Effect.{IsDatabase};
ghost use Rattle.table_schema.specs.Layout.{no_schema, first_schema, IsStoreSchema, info_table};
ghost use Rattle.table_schema.specs.Holds.{rows_in};
ghost use Rattle.table_schema.specs.Ready.{Commits, Keeps, Rests};
ghost use Rattle.tenant_tables.specs.Opened.{HasVersion, SaysVersion, IsKnown, IsBare, IsMigrated, IsStrange, SetsUp, Stays};

use crate::write::{Write, run_all};
use sqlite::{Alter, Connection, Error, Row};
use std::alloc::AllocError;
use table_schema::first::is_first;
use table_schema::refuse::fault_of;
use table_schema::rows::int_at;
use table_schema::schema::layout_of;
use tenant_messages::StoreFault;

/// Returns whether the database has no table, index or view.
fn is_empty<S: Alter>(conn: &Connection<S>) -> bool
    ensures none { IsTrue result ↔ (state S.Store conn.now).now.schema ≡ no_schema }
    ensures live { IsLive (state S.Store conn.now) }
{
    let schema = conn.schema();
    schema.tables.is_empty() && schema.indexes.is_empty() && schema.views.is_empty()
}

/// Makes the tables in a database that has none, all of them or none.
///
/// `Err(StoreFault::NoMemory)`, `Err(StoreFault::Full)`: nothing is committed.
fn make<S: Alter>(conn: &mut Connection<S>) -> Result<(), StoreFault>
    requires autocommit { conn.old.in_transaction ≡ false }
    requires settled { HasCleanDisk (state S.Store conn.old) → (state S.Store conn.old).now ≡ (state S.Store conn.old).committed }
    requires none { (state S.Store conn.old).now.schema ≡ no_schema }
    ensures done { HasCleanDisk (state S.Store conn.new) → OnOk result ((db : _) × IsBare db × Commits (state S.Store conn.old) (state S.Store conn.new) db) }
    ensures kept { HasCleanDisk (state S.Store conn.new) → OnErr result (Keeps (state S.Store conn.old) (state S.Store conn.new)) }
    ensures rows { result ≢ Err StoreFault.Damaged }
    ensures crash { Survives (state S.Store conn.old) (state S.Store conn.new) (λ trees. (db : _) × IsBare db × (trees ≡ db.trees)) }
    ensures ended { conn.new.in_transaction ≡ false }
{
    let made = run_all(
        conn,
        &[
            Write::Plain(
                "CREATE TABLE schema_info (one INTEGER NOT NULL PRIMARY KEY CHECK (one = 1), version INTEGER NOT NULL) STRICT",
            ),
            Write::Plain(
                "CREATE TABLE tenants (id INTEGER NOT NULL PRIMARY KEY AUTOINCREMENT, name TEXT NOT NULL UNIQUE, epoch INTEGER NOT NULL) STRICT",
            ),
            Write::Plain(
                "CREATE TABLE maps (tenant INTEGER NOT NULL REFERENCES tenants(id) ON DELETE CASCADE, version INTEGER NOT NULL, text TEXT NOT NULL, PRIMARY KEY(tenant, version)) STRICT",
            ),
            Write::Plain(
                "CREATE TABLE devices (tenant INTEGER NOT NULL REFERENCES tenants(id) ON DELETE CASCADE, device INTEGER NOT NULL, reweight INTEGER NOT NULL, up INTEGER NOT NULL, PRIMARY KEY(tenant, device)) STRICT",
            ),
            Write::Plain(
                "CREATE TABLE receipts (tenant INTEGER NOT NULL REFERENCES tenants(id) ON DELETE CASCADE, request TEXT NOT NULL, path TEXT NOT NULL, body TEXT NOT NULL, status INTEGER NOT NULL, reply TEXT NOT NULL, PRIMARY KEY(tenant, request)) STRICT",
            ),
            Write::Plain(
                "CREATE TABLE pools_2 (tenant INTEGER NOT NULL REFERENCES tenants(id) ON DELETE CASCADE, id INTEGER NOT NULL, name TEXT NOT NULL, erasure INTEGER NOT NULL, size INTEGER NOT NULL, rule INTEGER NOT NULL, pg_num INTEGER NOT NULL, pgp_num INTEGER NOT NULL, hashpspool INTEGER NOT NULL, pairs INTEGER NOT NULL, PRIMARY KEY(tenant, id), UNIQUE(tenant, name)) STRICT",
            ),
            Write::Plain(
                "CREATE TABLE exceptions (tenant INTEGER NOT NULL REFERENCES tenants(id) ON DELETE CASCADE, pool INTEGER NOT NULL, place INTEGER NOT NULL, grp INTEGER NOT NULL, src INTEGER NOT NULL, dst INTEGER NOT NULL, PRIMARY KEY(tenant, pool, place)) STRICT",
            ),
            Write::Plain("INSERT INTO schema_info VALUES (1, 2)"),
        ],
    );
    match made {
        Ok(()) => Ok(()),
        Err(error) => Err(fault_of(error)),
    }
}

/// Returns whether `rows` are one row, of 1 and `version`.
///
/// `Err(AllocError)`: an allocation failed; nothing is changed.
fn is_version(rows: &[Row], version: i64) -> Result<bool, AllocError>
    ensures yes { IfOk result (λ b. IsTrue b → rows.now ≡ (Int (pos 1) ∷ Int version ∷ []) ∷ []) }
    ensures no { IfOk result (λ b. b ≡ false → rows.now ≢ (Int (pos 1) ∷ Int version ∷ []) ∷ []) }
{
    let [row] = rows else {
        return Ok(false);
    };
    if row.column_count() != 2 {
        return Ok(false);
    }
    let Some(one) = int_at(row, 0)? else {
        return Ok(false);
    };
    let Some(found) = int_at(row, 1)? else {
        return Ok(false);
    };
    Ok(one == 1 && found == version)
}

/// Reads the rows of `schema_info`, which have the version of the tables.
fn versions<S: Alter>(conn: &mut Connection<S>) -> Result<Vec<Row>, Error>
    requires sound { HasCleanDisk (state S.Store conn.old) → IsDatabase (state S.Store conn.old).now }
    requires known { IsKnown (state S.Store conn.old).now.schema }
    ensures found { HasCleanDisk (state S.Store conn.new) → IfOk result (λ rows. IsPermutation (map (λ row. column row 0 ∷ column row 2 ∷ []) (rows_in info_table (state S.Store conn.old).now.trees)) rows.items) }
    ensures same { HasCleanDisk (state S.Store conn.new) → OnOk result (IsUnchanged (state S.Store conn.old) (state S.Store conn.new)) }
    ensures kept { HasCleanDisk (state S.Store conn.new) → OnErr result (Rests (state S.Store conn.old) (state S.Store conn.new)) }
    ensures survives { Survives (state S.Store conn.old) (state S.Store conn.new) (λ _. ⊥) }
    ensures ended { conn.old.in_transaction ≡ false → conn.new.in_transaction ≡ false }
{
    conn.query_all("SELECT one, version FROM schema_info", &[])
}

/// Tests that the tables are of the version `version`.
///
/// `Err(StoreFault::Damaged)`: they are of another version. Nothing is changed.
fn adopt<S: Alter>(conn: &mut Connection<S>, version: i64) -> Result<(), StoreFault>
    requires autocommit { conn.old.in_transaction ≡ false }
    requires settled { HasCleanDisk (state S.Store conn.old) → (state S.Store conn.old).now ≡ (state S.Store conn.old).committed }
    requires sound { HasCleanDisk (state S.Store conn.old) → IsDatabase (state S.Store conn.old).now }
    requires known { IsKnown (state S.Store conn.old).now.schema }
    ensures version { HasCleanDisk (state S.Store conn.new) → OnOk result (SaysVersion version (state S.Store conn.old).now.trees) }
    ensures damaged { HasCleanDisk (state S.Store conn.new) → result ≡ Err StoreFault.Damaged → ¬ SaysVersion version (state S.Store conn.old).now.trees }
    ensures same { HasCleanDisk (state S.Store conn.new) → OnOk result (Stays (state S.Store conn.old) (state S.Store conn.new)) }
    ensures stands { HasCleanDisk (state S.Store conn.new) → result ≡ Err StoreFault.Damaged → Stays (state S.Store conn.old) (state S.Store conn.new) }
    ensures kept { HasCleanDisk (state S.Store conn.new) → OnErr result (Rests (state S.Store conn.old) (state S.Store conn.new)) }
    ensures survives { Survives (state S.Store conn.old) (state S.Store conn.new) (λ _. ⊥) }
    ensures ended { conn.new.in_transaction ≡ false }
{
    let rows = match versions(conn) {
        Ok(rows) => rows,
        Err(error) => return Err(fault_of(error)),
    };
    if is_version(&rows, version)? {
        Ok(())
    } else {
        Err(StoreFault::Damaged)
    }
}

/// Puts the tables of schema 2 in the place of those of schema 1, all of them or none.
///
/// `Err(StoreFault::NoMemory)`, `Err(StoreFault::Full)`: nothing is committed.
fn replace<S: Alter>(conn: &mut Connection<S>) -> Result<(), StoreFault>
    requires autocommit { conn.old.in_transaction ≡ false }
    requires settled { HasCleanDisk (state S.Store conn.old) → (state S.Store conn.old).now ≡ (state S.Store conn.old).committed }
    requires sound { HasCleanDisk (state S.Store conn.old) → IsDatabase (state S.Store conn.old).now }
    requires first { HasCleanDisk (state S.Store conn.old) → (state S.Store conn.old).now.schema ≡ first_schema }
    requires version { HasCleanDisk (state S.Store conn.old) → HasVersion 1 (state S.Store conn.old).now.trees }
    ensures done { HasCleanDisk (state S.Store conn.new) → OnOk result ((db : _) × IsMigrated (state S.Store conn.old).now db × Commits (state S.Store conn.old) (state S.Store conn.new) db) }
    ensures kept { HasCleanDisk (state S.Store conn.new) → OnErr result (Keeps (state S.Store conn.old) (state S.Store conn.new)) }
    ensures rows { result ≢ Err StoreFault.Damaged }
    ensures crash { Survives (state S.Store conn.old) (state S.Store conn.new) (λ trees. (db : _) × IsMigrated (state S.Store conn.old).now db × (trees ≡ db.trees)) }
    ensures ended { conn.new.in_transaction ≡ false }
{
    let replaced = run_all(
        conn,
        &[
            Write::Plain(
                "CREATE TABLE pools_2 (tenant INTEGER NOT NULL REFERENCES tenants(id) ON DELETE CASCADE, id INTEGER NOT NULL, name TEXT NOT NULL, erasure INTEGER NOT NULL, size INTEGER NOT NULL, rule INTEGER NOT NULL, pg_num INTEGER NOT NULL, pgp_num INTEGER NOT NULL, hashpspool INTEGER NOT NULL, pairs INTEGER NOT NULL, PRIMARY KEY(tenant, id), UNIQUE(tenant, name)) STRICT",
            ),
            Write::Plain(
                "CREATE TABLE exceptions (tenant INTEGER NOT NULL REFERENCES tenants(id) ON DELETE CASCADE, pool INTEGER NOT NULL, place INTEGER NOT NULL, grp INTEGER NOT NULL, src INTEGER NOT NULL, dst INTEGER NOT NULL, PRIMARY KEY(tenant, pool, place)) STRICT",
            ),
            Write::Plain(
                "INSERT INTO pools_2 SELECT tenant, id, name, erasure, size, rule, pg_num, pgp_num, hashpspool, 0 FROM pools",
            ),
            Write::Plain("DROP TABLE pools"),
            Write::Plain("UPDATE schema_info SET version = 2"),
        ],
    );
    match replaced {
        Ok(()) => Ok(()),
        Err(error) => Err(fault_of(error)),
    }
}

/// Tests that the tables are of version 1, and replaces them.
///
/// `Err(StoreFault::Damaged)`: they are of another version. Nothing is changed.
/// `Err(StoreFault::NoMemory)`, `Err(StoreFault::Full)`: nothing is committed.
fn migrate<S: Alter>(conn: &mut Connection<S>) -> Result<(), StoreFault>
    requires autocommit { conn.old.in_transaction ≡ false }
    requires open { HasCleanDisk (state S.Store conn.old) → IsTrue (state S.Store conn.old).is_open }
    requires settled { HasCleanDisk (state S.Store conn.old) → (state S.Store conn.old).now ≡ (state S.Store conn.old).committed }
    requires sound { HasCleanDisk (state S.Store conn.old) → IsDatabase (state S.Store conn.old).now }
    requires first { (state S.Store conn.old).now.schema ≡ first_schema }
    ensures done { HasCleanDisk (state S.Store conn.new) → OnOk result ((db : _) × IsMigrated (state S.Store conn.old).now db × Commits (state S.Store conn.old) (state S.Store conn.new) db) }
    ensures damaged { HasCleanDisk (state S.Store conn.new) → result ≡ Err StoreFault.Damaged → ¬ HasVersion 1 (state S.Store conn.old).now.trees }
    ensures stands { HasCleanDisk (state S.Store conn.new) → result ≡ Err StoreFault.Damaged → Stays (state S.Store conn.old) (state S.Store conn.new) }
    ensures kept { HasCleanDisk (state S.Store conn.new) → OnErr result (Rests (state S.Store conn.old) (state S.Store conn.new)) }
    ensures crash { Survives (state S.Store conn.old) (state S.Store conn.new) (λ trees. (db : _) × IsMigrated (state S.Store conn.old).now db × (trees ≡ db.trees)) }
    ensures ended { conn.new.in_transaction ≡ false }
{
    adopt(conn, 1)?;
    replace(conn)
}

/// Makes the tables in a database that has none, replaces those of schema 1, and else tests that
/// they are schema 2.
///
/// `Err(StoreFault::Damaged)`: they are another's, or of another version. Nothing is changed.
/// `Err(StoreFault::NoMemory)`, `Err(StoreFault::Full)`: nothing is committed.
pub fn set_up<S: Alter>(conn: &mut Connection<S>) -> Result<(), StoreFault>
    requires autocommit { conn.old.in_transaction ≡ false }
    requires open { HasCleanDisk (state S.Store conn.old) → IsTrue (state S.Store conn.old).is_open }
    requires settled { HasCleanDisk (state S.Store conn.old) → (state S.Store conn.old).now ≡ (state S.Store conn.old).committed }
    ensures made { HasCleanDisk (state S.Store conn.new) → (state S.Store conn.old).now.schema ≡ no_schema → OnOk result ((db : _) × IsBare db × Commits (state S.Store conn.old) (state S.Store conn.new) db) }
    ensures adopted { HasCleanDisk (state S.Store conn.new) → IsStoreSchema (state S.Store conn.old).now.schema → OnOk result (Stays (state S.Store conn.old) (state S.Store conn.new) × HasVersion 2 (state S.Store conn.old).now.trees) }
    ensures migrated { HasCleanDisk (state S.Store conn.new) → (state S.Store conn.old).now.schema ≡ first_schema → OnOk result ((db : _) × IsMigrated (state S.Store conn.old).now db × Commits (state S.Store conn.old) (state S.Store conn.new) db) }
    ensures known { OnOk result (((state S.Store conn.old).now.schema ≡ no_schema) ⊎ IsKnown (state S.Store conn.old).now.schema) }
    ensures damaged { HasCleanDisk (state S.Store conn.new) → result ≡ Err StoreFault.Damaged → IsStrange (state S.Store conn.old).now }
    ensures stands { HasCleanDisk (state S.Store conn.new) → result ≡ Err StoreFault.Damaged → Stays (state S.Store conn.old) (state S.Store conn.new) }
    ensures kept { HasCleanDisk (state S.Store conn.new) → OnErr result (Rests (state S.Store conn.old) (state S.Store conn.new)) }
    ensures crash { Survives (state S.Store conn.old) (state S.Store conn.new) (SetsUp (state S.Store conn.old).now) }
    ensures ended { conn.new.in_transaction ≡ false }
{
    if is_empty(conn) {
        make(conn)
    } else if layout_of(conn.schema()).is_some() {
        adopt(conn, 2)
    } else if is_first(conn.schema()) {
        migrate(conn)
    } else {
        Err(StoreFault::Damaged)
    }
}

/// Prepares the statement that `refusal` prepares, so that it takes no memory then. The plans that
/// a connection keeps are forgotten where the schema changes, so the tables have to be there.
pub fn get_ready<S: Alter>(conn: &mut Connection<S>) -> Result<(), StoreFault>
    ensures ok { HasCleanDisk (state S.Store conn.new) → OnOk result (IsUnchanged (state S.Store conn.old) (state S.Store conn.new)) }
    ensures err { IfErr result (λ fault. (fault ≡ StoreFault.NoMemory) ⊎ (fault ≡ StoreFault.Failed)) }
    ensures survives { Survives (state S.Store conn.old) (state S.Store conn.new) (λ _. ⊥) }
    ensures ended { conn.old.in_transaction ≡ false → conn.new.in_transaction ≡ false }
{
    match conn.prepare("") {
        Ok(_) => Ok(()),
        Err(error) => match fault_of(error) {
            StoreFault::NoMemory => Err(StoreFault::NoMemory),
            _ => Err(StoreFault::Failed),
        },
    }
}

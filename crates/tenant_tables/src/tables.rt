//! The tables of a connection as a value that latches after a failure.

ghost use Rattle.std.specs.Prelude.{◌≡◌, ◌≢◌, ◌↔◌, ◌⊎◌, [], ◌∷◌, map, true, false, Ok, IfOk, IfErr, OnOk, OnErr, Err, IsTrue, option_map};
ghost use Rattle.sqlite.specs.Held.{state};
ghost use Rattle.sqlite.specs.State.{HasCleanDisk, Survives};
ghost use Rattle.std.specs.List.{AllByRecursion};
ghost use Rattle.sqlite_trees.specs.View.{IsClean};
ghost use Rattle.table_schema.specs.Layout.{no_schema, first_schema, IsStoreSchema, receipts_table};
ghost use Rattle.tenant_tables.specs.Opened.{HasVersion, IsKnown, IsBare, IsMigrated, IsStrange, SetsUp};
ghost use Rattle.table_schema.specs.Ready.{Commits, IsReady};
ghost use Rattle.table_schema.specs.Holds.{of_tenant};
ghost use Rattle.table_schema.specs.Found.{Names, Lists, ListsBy, Begins, rows_behind, receipt_values, receipts_with, AreReceipt, IsReceiptRow};
ghost use Rattle.tenant_tables.specs.Reads.{ChangesNoRow};
ghost use Rattle.tenant_tables.specs.Run.{AreSound, Makes};
ghost use Rattle.sqlite.specs.Effect.{Database};

use crate::open::{get_ready, set_up};
use crate::reopen::reopen;
use crate::write::{Write, write_all};
use sqlite::{Alter, Connection};
use std::alloc::Global;
use std::marker::Model;
use table_schema::fault::ReadFault;
use table_schema::find::{Tenant, find};
use table_schema::lists::{list_of, receipt_of};
use table_schema::pages::receipts_behind;
use table_schema::rows::{ListedRow, ReceiptRow};
use tenant_messages::StoreFault;

/// The tables of a connection. Contracts see the connection, and whether a failure has latched the
/// tables. After that no further call is made on them.
#[derive(Drop)]
pub struct TenantTables<S: Alter> {
    conn: Connection<S>,
    pub(crate) alloc: Global,
    is_latched: bool,
}

impl<S: Alter> Model for TenantTables<S> {
    ghost use Rattle.std.specs.Prelude.{◌≡◌, false, Bool};
    ghost use Rattle.std.specs.Coded.{coded×, coded_bool};
    ghost use Rattle.sqlite.specs.Held.{Held, held_code, state};
    ghost use Rattle.sqlite.specs.State.{HasCleanDisk};
    ghost use Rattle.table_schema.specs.Ready.{IsReady};

    ghost Value = { Held S × Bool };

    ghost coded = { coded× (held_code S.code) coded_bool };

    ghost view = { λ s. (s.conn, s.is_latched) };

    ghost invariant = { λ s. (s.conn.in_transaction ≡ false) × (s.is_latched ≡ false → HasCleanDisk (state S.Store s.conn) → IsReady (state S.Store s.conn)) };
}

/// Latches the tables where `answer` is `Err(StoreFault::Failed)`, and only there, and returns
/// `answer`. Where memory or the disk was full, a later call may succeed.
fn latched<T>(is_latched: &mut bool, answer: Result<T, StoreFault>) -> Result<T, StoreFault>
    ensures latch { is_latched.new ≡ true ↔ answer ≡ Err StoreFault.Failed }
    ensures same { result ≡ answer }
{
    *is_latched = matches!(answer, Err(StoreFault::Failed));
    answer
}

/// Returns what is reported of a read, and latches the tables where the connection is lost, or may
/// be.
fn answered<T>(is_latched: &mut bool, answer: Result<T, ReadFault>) -> Result<T, StoreFault>
    ensures latch { is_latched.new ≡ true ↔ result ≡ Err StoreFault.Failed }
    ensures ok { IfOk result (λ x. answer ≡ Ok x) }
    ensures damaged { result ≡ Err StoreFault.Damaged → answer ≡ Err ReadFault.Damaged }
    ensures stands { result ≢ Err StoreFault.Failed → (answer ≢ Err ReadFault.Unseen) × (answer ≢ Err ReadFault.Failed) }
    ensures full { result ≢ Err StoreFault.Full }
{
    let answer = match answer {
        Ok(found) => Ok(found),
        Err(ReadFault::NoMemory) => Err(StoreFault::NoMemory),
        Err(ReadFault::Damaged) => Err(StoreFault::Damaged),
        Err(ReadFault::Unseen | ReadFault::Failed) => Err(StoreFault::Failed),
    };
    latched(is_latched, answer)
}

impl<S: Alter + Drop> TenantTables<S> {
    /// Opens the tables of a connection. They are made where the database has none, those of schema
    /// 1 are replaced, and else they are tested: the whole schema, its version, and that rows are
    /// stored by rowid. So what the other calls rest on holds of each file that is opened, and no
    /// caller has to know where the file came from.
    ///
    /// `Err((StoreFault::Damaged, store))`: the tables are another's, or of another version.
    /// Nothing is changed. `Err((StoreFault::NoMemory, store))`, `Err((StoreFault::Full, store))`,
    /// `Err((StoreFault::Failed, store))`: the tables may have been made, or those of schema 1
    /// replaced, and no row of a tenant is lost.
    pub fn open(alloc: Global, conn: Connection<S>) -> Result<TenantTables<S>, (StoreFault, S)>
        requires autocommit { conn.in_transaction ≡ false }
        requires open { HasCleanDisk (state S.Store conn) → IsTrue (state S.Store conn).is_open }
        requires settled { HasCleanDisk (state S.Store conn) → (state S.Store conn).now ≡ (state S.Store conn).committed }
        ensures live { IfOk result (λ tables. tables.1 ≡ false) }
        ensures clean { IfOk result (λ tables. HasCleanDisk (state S.Store tables.0) → HasCleanDisk (state S.Store conn)) }
        ensures known { IfOk result (λ tables. ((state S.Store conn).now.schema ≡ no_schema) ⊎ IsKnown (state S.Store conn).now.schema) }
        ensures made { IfOk result (λ tables. HasCleanDisk (state S.Store tables.0) → (state S.Store conn).now.schema ≡ no_schema → IsBare (state S.Store tables.0).now) }
        ensures adopted { IfOk result (λ tables. HasCleanDisk (state S.Store tables.0) → IsStoreSchema (state S.Store conn).now.schema
            → ((state S.Store tables.0).now.trees ≡ (state S.Store conn).now.trees) × HasVersion 2 (state S.Store conn).now.trees) }
        ensures migrated { IfOk result (λ tables. HasCleanDisk (state S.Store tables.0) → (state S.Store conn).now.schema ≡ first_schema → IsMigrated (state S.Store conn).now (state S.Store tables.0).now) }
        ensures alone { IfOk result (λ tables. HasCleanDisk (state S.Store tables.0) → (db : _) → (state S.Store tables.0).may_leave db → db ≡ (state S.Store tables.0).now.trees) }
        ensures damaged { IfErr result (λ e. IsClean (S.Store.view e.1) → e.0 ≡ StoreFault.Damaged → IsStrange (state S.Store conn).now) }
        ensures was_clean { IfErr result (λ e. IsClean (S.Store.view e.1) → HasCleanDisk (state S.Store conn)) }
        ensures crash { IfErr result (λ e. IsClean (S.Store.view e.1) → (trees : _) → S.Store.recovers e.1 trees → (state S.Store conn).may_leave trees ⊎ SetsUp (state S.Store conn).now trees) }
    {
        let mut conn = conn;
        if let Err(fault) = set_up(&mut conn) {
            return Err((fault, conn.into_store()));
        }
        let mut conn = match reopen(alloc, conn) {
            Ok(conn) => conn,
            Err((fault, store)) => return Err((fault, store)),
        };
        match get_ready(&mut conn) {
            Ok(()) => Ok(TenantTables {
                conn,
                alloc,
                is_latched: false,
            }),
            Err(fault) => Err((fault, conn.into_store())),
        }
    }
}

impl<S: Alter> TenantTables<S> {
    /// Gives the connection back unchanged.
    pub fn close(self) -> Connection<S>
        ensures { result ≡ self.0 }
    {
        let TenantTables {
            conn,
            alloc: _,
            is_latched: _,
        } = self;
        conn
    }

    /// Returns whether a call has failed for good. Where none has, a contract says that the
    /// connection is ready.
    pub fn is_latched(&self) -> bool
        ensures value { result ≡ self.now.1 }
        ensures ready { self.now.1 ≡ false → HasCleanDisk (state S.Store self.now.0) → IsReady (state S.Store self.now.0) }
    {
        self.is_latched
    }

    /// Runs the writes in one transaction, all of them or none. The writes have to leave this
    /// service's tables sound.
    ///
    /// `Err(StoreFault::NoMemory)`, `Err(StoreFault::Full)`: nothing is changed.
    /// `Err(StoreFault::Failed)`: the tables are latched.
    pub(crate) fn write(&mut self, writes: &[Write<'_>]) -> Result<(), StoreFault>
        requires live { self.old.1 ≡ false }
        requires sound { HasCleanDisk (state S.Store self.old.0) → IsReady (state S.Store self.old.0) → (db : Database) → Makes S.Store writes.now self.old.0 db → AreSound db }
        ensures ready { HasCleanDisk (state S.Store self.old.0) → IsReady (state S.Store self.old.0) }
        ensures done { HasCleanDisk (state S.Store self.new.0) → OnOk result ((db : Database) × Makes S.Store writes.now self.old.0 db × Commits (state S.Store self.old.0) (state S.Store self.new.0) db) }
        ensures kept { HasCleanDisk (state S.Store self.new.0) → self.new.1 ≡ false → OnErr result ((state S.Store self.new.0).now ≡ (state S.Store self.old.0).now) }
        ensures latches { self.new.1 ≡ true ↔ result ≡ Err StoreFault.Failed }
        ensures rows { result ≢ Err StoreFault.Damaged }
        ensures crash { Survives (state S.Store self.old.0) (state S.Store self.new.0) (λ trees. (db : Database) × Makes S.Store writes.now self.old.0 db × (trees ≡ db.trees)) }
    {
        latched(&mut self.is_latched, write_all(&mut self.conn, writes))
    }

    /// Reads the tenant with the name, or `None` where there is none.
    ///
    /// No row is changed. `Err(StoreFault::Damaged)`: there are several, or the row is none that
    /// this service writes. `Err(StoreFault::Failed)`: the tables are latched.
    pub fn find(&mut self, name: &str) -> Result<Option<Tenant>, StoreFault>
        requires live { self.old.1 ≡ false }
        ensures ready { HasCleanDisk (state S.Store self.old.0) → IsReady (state S.Store self.old.0) }
        ensures found { HasCleanDisk (state S.Store self.new.0) → IfOk result (Names (state S.Store self.old.0).now.trees name.now) }
        ensures damaged { HasCleanDisk (state S.Store self.new.0) → result ≡ Err StoreFault.Damaged → (tenant : _) → ¬ Names (state S.Store self.old.0).now.trees name.now tenant }
        ensures reads { ChangesNoRow S.Store result self.old self.new }
    {
        answered(&mut self.is_latched, find(&mut self.conn, name))
    }

    /// Reads the list of `T`s of the tenant with the number `id`, whose keys rise strictly.
    ///
    /// No row is changed. `Err(StoreFault::Damaged)`: a key occurs twice, or a row is none that
    /// this service writes. `Err(StoreFault::Failed)`: the tables are latched.
    pub fn list_of<T: ListedRow + Drop>(&mut self, id: i64) -> Result<Vec<T>, StoreFault>
        requires live { self.old.1 ≡ false }
        ensures found { HasCleanDisk (state S.Store self.new.0) → IfOk result (λ list. ListsBy T.before (of_tenant T.table id (state S.Store self.old.0).now.trees) (map T.values list.items)) }
        ensures damaged { HasCleanDisk (state S.Store self.new.0) → result ≡ Err StoreFault.Damaged → (list : _) → AllByRecursion T.is_one list → ¬ ListsBy T.before (of_tenant T.table id (state S.Store self.old.0).now.trees) list }
        ensures reads { ChangesNoRow S.Store result self.old self.new }
    {
        answered(
            &mut self.is_latched,
            list_of(self.alloc, &mut self.conn, id),
        )
    }

    /// Reads the receipt of the request of the tenant with the number `id`, or `None` where there
    /// is none.
    ///
    /// No row is changed. `Err(StoreFault::Damaged)`: there are several, or the row is none that
    /// this service writes. `Err(StoreFault::Failed)`: the tables are latched.
    pub fn receipt_of(&mut self, id: i64, request: &str) -> Result<Option<ReceiptRow>, StoreFault>
        requires live { self.old.1 ≡ false }
        ensures found { HasCleanDisk (state S.Store self.new.0) → IfOk result (AreReceipt (receipts_with (state S.Store self.old.0).now.trees id request.now)) }
        ensures damaged { HasCleanDisk (state S.Store self.new.0) → result ≡ Err StoreFault.Damaged → (receipts_with (state S.Store self.old.0).now.trees id request.now ≢ []) × ((row : _) → IsReceiptRow row → receipts_with (state S.Store self.old.0).now.trees id request.now ≢ row ∷ []) }
        ensures reads { ChangesNoRow S.Store result self.old self.new }
    {
        answered(
            &mut self.is_latched,
            receipt_of(&mut self.conn, id, request),
        )
    }

    /// Reads the first receipts of the tenant with the number `id` whose requests are above
    /// `after`, or its first receipts where that is `None`, in the order of their requests' bytes:
    /// a page, or fewer where there are no more. Given the last request of a page, it reads the
    /// next page.
    ///
    /// No row is changed. `Err(StoreFault::Damaged)`: a request occurs twice, or a row is none that
    /// this service writes. `Err(StoreFault::Failed)`: the tables are latched.
    pub fn receipts_behind(
        &mut self,
        id: i64,
        after: Option<&str>,
    ) -> Result<Vec<ReceiptRow>, StoreFault>
        requires live { self.old.1 ≡ false }
        ensures found { HasCleanDisk (state S.Store self.new.0) → IfOk result (λ page. Begins 16 (rows_behind (option_map (λ t. t.now) after.entry) (of_tenant receipts_table id (state S.Store self.old.0).now.trees)) (map receipt_values page.items)) }
        ensures damaged { HasCleanDisk (state S.Store self.new.0) → result ≡ Err StoreFault.Damaged → (list : _) → AllByRecursion IsReceiptRow list → ¬ Lists (rows_behind (option_map (λ t. t.now) after.entry) (of_tenant receipts_table id (state S.Store self.old.0).now.trees)) list }
        ensures reads { ChangesNoRow S.Store result self.old self.new }
    {
        answered(
            &mut self.is_latched,
            receipts_behind(self.alloc, &mut self.conn, id, after),
        )
    }
}

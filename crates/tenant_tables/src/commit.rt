//! Changes of tenants. An accepted change is written with its epoch and its receipt.

ghost use Rattle.std.specs.Prelude.{◌≡◌, ◌≢◌, ◌↔◌, ◌++◌, true, false, IfOk, OnOk, OnErr, Err};
ghost use Rattle.sqlite.specs.Held.{state};
ghost use Rattle.sqlite.specs.State.{HasCleanDisk, Survives};
ghost use Rattle.table_schema.specs.Holds.{IsAbsent};
ghost use Rattle.table_schema.specs.Ready.{IsReady};
ghost use Rattle.tenant_tables.specs.Run.{state_writes, pool_writes, exception_writes, writes_with};
ghost use Rattle.tenant_tables.specs.Change.{Accepts, Creates, Drops, IsNumber, with_version, with_states, with_pool, without_pool, with_exceptions};

use crate::tables::TenantTables;
use crate::write::Write;
use sqlite::Alter;
use std::alloc::{AllocError, Global};
use table_schema::values::{ExceptionRow, PoolValues, ReceiptValues, StateRow};
use tenant_messages::StoreFault;

/// What each accepted change writes beside what it made: the number of its tenant, the tenant's new
/// epoch, and the receipt.
#[derive(Clone, Copy)]
pub struct CommitHead<'a> {
    pub id: i64,
    pub epoch: i64,
    pub receipt: ReceiptValues<'a>,
}

/// Returns the writes that set the states of devices, the epoch and the receipt.
///
/// `Err(AllocError)`: an allocation failed; nothing is changed.
fn writes_for<'a>(
    alloc: Global,
    accepted: &CommitHead<'a>,
    states: &[StateRow],
) -> Result<Vec<Write<'a>>, AllocError>
    ensures { IfOk result (λ writes. writes.items ≡ writes_with accepted.now (state_writes accepted.now.id states.now)) }
{
    let CommitHead { id, epoch, receipt } = *accepted;
    let mut writes = Vec::new(alloc);
    writes.push(Write::Raise { id, epoch })?;
    for state in states {
        writes.push(Write::ClearState {
            id,
            device: state.device,
        })?;
        writes.push(Write::AddState { id, state: *state })?;
    }
    writes.push(Write::AddReceipt { id, receipt })?;
    Ok(writes)
}

/// Returns the writes that set a pool's row, its exceptions, the epoch and the receipt.
///
/// `Err(AllocError)`: an allocation failed; nothing is changed.
fn exception_writes_for<'a>(
    alloc: Global,
    accepted: &CommitHead<'a>,
    pool: &PoolValues<'a>,
    exceptions: &[ExceptionRow],
) -> Result<Vec<Write<'a>>, AllocError>
    ensures { IfOk result (λ writes. writes.items ≡ writes_with accepted.now (pool_writes accepted.now.id pool.now ++ exception_writes accepted.now.id exceptions.now)) }
{
    let CommitHead { id, epoch, receipt } = *accepted;
    let mut writes = Vec::new(alloc);
    writes.push(Write::Raise { id, epoch })?;
    writes.push(Write::ClearExceptions { id, pool: pool.id })?;
    writes.push(Write::RemovePool { id, pool: pool.id })?;
    writes.push(Write::AddPool { id, pool: *pool })?;
    for exception in exceptions {
        writes.push(Write::AddException {
            id,
            exception: *exception,
        })?;
    }
    writes.push(Write::AddReceipt { id, receipt })?;
    Ok(writes)
}

impl<S: Alter> TenantTables<S> {
    /// Makes a tenant with epoch 0 and no other row, under a number that no tenant had before.
    ///
    /// `Err(StoreFault::NoMemory)`, `Err(StoreFault::Full)`: nothing is changed.
    /// `Err(StoreFault::Failed)`: the tables are latched.
    pub fn create(&mut self, name: &str) -> Result<(), StoreFault>
        requires live { self.old.1 ≡ false }
        requires absent { HasCleanDisk (state S.Store self.old.0) → IsReady (state S.Store self.old.0) → IsAbsent (state S.Store self.old.0).now.trees name.now }
        ensures ready { HasCleanDisk (state S.Store self.old.0) → IsReady (state S.Store self.old.0) }
        ensures done { HasCleanDisk (state S.Store self.new.0) → OnOk result (Creates name.now (state S.Store self.old.0).now.trees (state S.Store self.new.0).now.trees) }
        ensures kept { HasCleanDisk (state S.Store self.new.0) → self.new.1 ≡ false → OnErr result ((state S.Store self.new.0).now ≡ (state S.Store self.old.0).now) }
        ensures latches { self.new.1 ≡ true ↔ result ≡ Err StoreFault.Failed }
        ensures rows { result ≢ Err StoreFault.Damaged }
        ensures crash { Survives (state S.Store self.old.0) (state S.Store self.new.0) (Creates name.now (state S.Store self.old.0).now.trees) }
    {
        self.write(&[Write::Create { name }])
    }

    /// Removes the tenant with the number, and with it each of its rows.
    ///
    /// `Err(StoreFault::NoMemory)`, `Err(StoreFault::Full)`: nothing is changed.
    /// `Err(StoreFault::Failed)`: the tables are latched.
    pub fn remove(&mut self, id: i64) -> Result<(), StoreFault>
        requires live { self.old.1 ≡ false }
        requires there { HasCleanDisk (state S.Store self.old.0) → IsNumber (state S.Store self.old.0).now.trees id }
        ensures done { HasCleanDisk (state S.Store self.new.0) → OnOk result (Drops id (state S.Store self.old.0).now.trees (state S.Store self.new.0).now.trees) }
        ensures kept { HasCleanDisk (state S.Store self.new.0) → self.new.1 ≡ false → OnErr result ((state S.Store self.new.0).now ≡ (state S.Store self.old.0).now) }
        ensures latches { self.new.1 ≡ true ↔ result ≡ Err StoreFault.Failed }
        ensures rows { result ≢ Err StoreFault.Damaged }
        ensures crash { Survives (state S.Store self.old.0) (state S.Store self.new.0) (Drops id (state S.Store self.old.0).now.trees) }
    {
        self.write(&[Write::Remove { id }])
    }

    /// Adds a version of the map of the tenant, with what each accepted change writes.
    ///
    /// `Err(StoreFault::NoMemory)`, `Err(StoreFault::Full)`: nothing is changed.
    /// `Err(StoreFault::Failed)`: the tables are latched.
    pub fn commit_version<'a>(
        &mut self,
        accepted: &CommitHead<'a>,
        version: i64,
        text: &'a str,
    ) -> Result<(), StoreFault>
        requires live { self.old.1 ≡ false }
        requires there { HasCleanDisk (state S.Store self.old.0) → IsNumber (state S.Store self.old.0).now.trees accepted.now.id }
        ensures done { HasCleanDisk (state S.Store self.new.0) → OnOk result (Accepts accepted.now (with_version version text.now) (state S.Store self.old.0).now.trees (state S.Store self.new.0).now.trees) }
        ensures kept { HasCleanDisk (state S.Store self.new.0) → self.new.1 ≡ false → OnErr result ((state S.Store self.new.0).now ≡ (state S.Store self.old.0).now) }
        ensures latches { self.new.1 ≡ true ↔ result ≡ Err StoreFault.Failed }
        ensures rows { result ≢ Err StoreFault.Damaged }
        ensures crash { Survives (state S.Store self.old.0) (state S.Store self.new.0) (Accepts accepted.now (with_version version text.now) (state S.Store self.old.0).now.trees) }
    {
        let CommitHead { id, epoch, receipt } = *accepted;
        self.write(&[
            Write::Raise { id, epoch },
            Write::AddVersion { id, version, text },
            Write::AddReceipt { id, receipt },
        ])
    }

    /// Sets the states of devices, each in place of an earlier one, with what each accepted change
    /// writes.
    ///
    /// `Err(StoreFault::NoMemory)`, `Err(StoreFault::Full)`: nothing is changed.
    /// `Err(StoreFault::Failed)`: the tables are latched.
    pub fn commit_states<'a>(
        &mut self,
        accepted: &CommitHead<'a>,
        states: &[StateRow],
    ) -> Result<(), StoreFault>
        requires live { self.old.1 ≡ false }
        requires there { HasCleanDisk (state S.Store self.old.0) → IsNumber (state S.Store self.old.0).now.trees accepted.now.id }
        ensures done { HasCleanDisk (state S.Store self.new.0) → OnOk result (Accepts accepted.now (with_states states.now) (state S.Store self.old.0).now.trees (state S.Store self.new.0).now.trees) }
        ensures kept { HasCleanDisk (state S.Store self.new.0) → self.new.1 ≡ false → OnErr result ((state S.Store self.new.0).now ≡ (state S.Store self.old.0).now) }
        ensures latches { self.new.1 ≡ true ↔ result ≡ Err StoreFault.Failed }
        ensures rows { result ≢ Err StoreFault.Damaged }
        ensures crash { Survives (state S.Store self.old.0) (state S.Store self.new.0) (Accepts accepted.now (with_states states.now) (state S.Store self.old.0).now.trees) }
    {
        let writes = writes_for(self.alloc, accepted, states)?;
        self.write(&writes)
    }

    /// Adds a pool, with what each accepted change writes.
    ///
    /// `Err(StoreFault::NoMemory)`, `Err(StoreFault::Full)`: nothing is changed.
    /// `Err(StoreFault::Failed)`: the tables are latched.
    pub fn commit_pool<'a>(
        &mut self,
        accepted: &CommitHead<'a>,
        pool: &PoolValues<'a>,
    ) -> Result<(), StoreFault>
        requires live { self.old.1 ≡ false }
        requires there { HasCleanDisk (state S.Store self.old.0) → IsNumber (state S.Store self.old.0).now.trees accepted.now.id }
        ensures done { HasCleanDisk (state S.Store self.new.0) → OnOk result (Accepts accepted.now (with_pool pool.now) (state S.Store self.old.0).now.trees (state S.Store self.new.0).now.trees) }
        ensures kept { HasCleanDisk (state S.Store self.new.0) → self.new.1 ≡ false → OnErr result ((state S.Store self.new.0).now ≡ (state S.Store self.old.0).now) }
        ensures latches { self.new.1 ≡ true ↔ result ≡ Err StoreFault.Failed }
        ensures rows { result ≢ Err StoreFault.Damaged }
        ensures crash { Survives (state S.Store self.old.0) (state S.Store self.new.0) (Accepts accepted.now (with_pool pool.now) (state S.Store self.old.0).now.trees) }
    {
        let CommitHead { id, epoch, receipt } = *accepted;
        self.write(&[
            Write::Raise { id, epoch },
            Write::AddPool { id, pool: *pool },
            Write::AddReceipt { id, receipt },
        ])
    }

    /// Sets the row of a pool and its exceptions, in place of the earlier ones, with what each
    /// accepted change writes. `pool.pairs` is to be the number of the exceptions, each of which
    /// names the pool.
    ///
    /// `Err(StoreFault::NoMemory)`, `Err(StoreFault::Full)`: nothing is changed.
    /// `Err(StoreFault::Failed)`: the tables are latched.
    pub fn commit_exceptions<'a>(
        &mut self,
        accepted: &CommitHead<'a>,
        pool: &PoolValues<'a>,
        exceptions: &[ExceptionRow],
    ) -> Result<(), StoreFault>
        requires live { self.old.1 ≡ false }
        requires there { HasCleanDisk (state S.Store self.old.0) → IsNumber (state S.Store self.old.0).now.trees accepted.now.id }
        ensures done { HasCleanDisk (state S.Store self.new.0) → OnOk result (Accepts accepted.now (with_exceptions pool.now exceptions.now) (state S.Store self.old.0).now.trees (state S.Store self.new.0).now.trees) }
        ensures kept { HasCleanDisk (state S.Store self.new.0) → self.new.1 ≡ false → OnErr result ((state S.Store self.new.0).now ≡ (state S.Store self.old.0).now) }
        ensures latches { self.new.1 ≡ true ↔ result ≡ Err StoreFault.Failed }
        ensures rows { result ≢ Err StoreFault.Damaged }
        ensures crash { Survives (state S.Store self.old.0) (state S.Store self.new.0) (Accepts accepted.now (with_exceptions pool.now exceptions.now) (state S.Store self.old.0).now.trees) }
    {
        let writes = exception_writes_for(self.alloc, accepted, pool, exceptions)?;
        self.write(&writes)
    }

    /// Removes the pool with the id, and its exceptions, with what each accepted change writes.
    ///
    /// `Err(StoreFault::NoMemory)`, `Err(StoreFault::Full)`: nothing is changed.
    /// `Err(StoreFault::Failed)`: the tables are latched.
    pub fn commit_no_pool<'a>(
        &mut self,
        accepted: &CommitHead<'a>,
        pool: i64,
    ) -> Result<(), StoreFault>
        requires live { self.old.1 ≡ false }
        requires there { HasCleanDisk (state S.Store self.old.0) → IsNumber (state S.Store self.old.0).now.trees accepted.now.id }
        ensures done { HasCleanDisk (state S.Store self.new.0) → OnOk result (Accepts accepted.now (without_pool pool) (state S.Store self.old.0).now.trees (state S.Store self.new.0).now.trees) }
        ensures kept { HasCleanDisk (state S.Store self.new.0) → self.new.1 ≡ false → OnErr result ((state S.Store self.new.0).now ≡ (state S.Store self.old.0).now) }
        ensures latches { self.new.1 ≡ true ↔ result ≡ Err StoreFault.Failed }
        ensures rows { result ≢ Err StoreFault.Damaged }
        ensures crash { Survives (state S.Store self.old.0) (state S.Store self.new.0) (Accepts accepted.now (without_pool pool) (state S.Store self.old.0).now.trees) }
    {
        let CommitHead { id, epoch, receipt } = *accepted;
        self.write(&[
            Write::Raise { id, epoch },
            Write::ClearExceptions { id, pool },
            Write::RemovePool { id, pool },
            Write::AddReceipt { id, receipt },
        ])
    }
}

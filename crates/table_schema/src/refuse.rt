//! Why the tables did not answer, and whether the connection is still open.

ghost use Rattle.std.specs.Prelude.{◌≡◌, ◌≢◌, ◌↔◌, ◌⊎◌, false, Err, IfErr, OnOk};
ghost use Rattle.sqlite.specs.Held.{state};
ghost use Rattle.sqlite.specs.State.{HasCleanDisk, IsUnchanged, Survives};
ghost use Rattle.table_schema.specs.Ready.{Rests};
ghost use Rattle.table_schema.specs.Refused.{IsFull, IsLost, IsMemory, Reports};

use sqlite::{Alter, Connection, Error, ErrorCode};
use tenant_messages::StoreFault;

/// What a look at the connection found, after a statement was refused.
#[derive(Clone, Copy, Debug, PartialEq, Eq)]
pub enum Sight {
    /// It is open, and the statement was refused for this fault.
    Open(StoreFault),
    /// An allocation failed in the look. It is open, or the disk had a fault.
    Unseen,
    /// It is lost: it was shut before, or the disk had a fault.
    Lost,
}

/// Returns the fault that is reported for `error`. It is never `StoreFault::Damaged`.
pub fn fault_of(error: Error) -> StoreFault
    ensures memory { result ≡ StoreFault.NoMemory ↔ error ≡ Error.SqliteFailure ErrorCode.OutOfMemory }
    ensures full { result ≡ StoreFault.Full ↔ (error ≡ Error.SqliteFailure ErrorCode.DiskFull) ⊎ (error ≡ Error.SqliteFailure ErrorCode.NoRowid) }
    ensures rows { result ≢ StoreFault.Damaged }
{
    match error {
        Error::SqliteFailure(ErrorCode::OutOfMemory) => StoreFault::NoMemory,
        Error::SqliteFailure(ErrorCode::DiskFull | ErrorCode::NoRowid) => StoreFault::Full,
        _ => StoreFault::Failed,
    }
}

/// Tests that the connection is open, by a statement with no token. Preparing it takes no memory
/// where the connection has kept its plan, as it does from the opening of the tables on.
pub fn look<S: Alter>(conn: &mut Connection<S>) -> Result<(), Error>
    ensures open { HasCleanDisk (state S.Store conn.new) → OnOk result (IsUnchanged (state S.Store conn.old) (state S.Store conn.new)) }
    ensures rests { HasCleanDisk (state S.Store conn.new) → Rests (state S.Store conn.old) (state S.Store conn.new) }
    ensures lost { HasCleanDisk (state S.Store conn.new) → IfErr result (λ error. ¬ IsMemory error → IsLost (state S.Store conn.old) (state S.Store conn.new)) }
    ensures survives { Survives (state S.Store conn.old) (state S.Store conn.new) (λ _. ⊥) }
    ensures ended { conn.old.in_transaction ≡ false → conn.new.in_transaction ≡ false }
{
    let _nothing = conn.prepare("")?;
    Ok(())
}

/// Returns what was found by a look at the connection that failed with `error`.
fn missed(error: Error) -> Sight
    ensures unseen { result ≡ Sight.Unseen ↔ IsMemory error }
    ensures lost { (result ≡ Sight.Unseen) ⊎ (result ≡ Sight.Lost) }
{
    match error {
        Error::SqliteFailure(ErrorCode::OutOfMemory) => Sight::Unseen,
        _ => Sight::Lost,
    }
}

/// Looks at the connection after a statement was refused with `error`.
pub fn look_after<S: Alter>(conn: &mut Connection<S>, error: Error) -> Sight
    ensures open { HasCleanDisk (state S.Store conn.new) → (fault : _) → result ≡ Sight.Open fault → IsUnchanged (state S.Store conn.old) (state S.Store conn.new) }
    ensures fault { (fault : _) → result ≡ Sight.Open fault → Reports error fault }
    ensures lost { HasCleanDisk (state S.Store conn.new) → result ≡ Sight.Lost → IsLost (state S.Store conn.old) (state S.Store conn.new) }
    ensures rests { HasCleanDisk (state S.Store conn.new) → Rests (state S.Store conn.old) (state S.Store conn.new) }
    ensures survives { Survives (state S.Store conn.old) (state S.Store conn.new) (λ _. ⊥) }
    ensures ended { conn.old.in_transaction ≡ false → conn.new.in_transaction ≡ false }
{
    match look(conn) {
        Ok(()) => Sight::Open(fault_of(error)),
        Err(again) => missed(again),
    }
}

/// Returns the fault of `error` where the connection is seen to be open, and else
/// `StoreFault::Failed`.
pub fn refusal<S: Alter>(conn: &mut Connection<S>, error: Error) -> StoreFault
    ensures open { HasCleanDisk (state S.Store conn.new) → result ≢ StoreFault.Failed → IsUnchanged (state S.Store conn.old) (state S.Store conn.new) }
    ensures memory { result ≡ StoreFault.NoMemory → IsMemory error }
    ensures full { result ≡ StoreFault.Full → IsFull error }
    ensures rows { result ≢ StoreFault.Damaged }
    ensures survives { Survives (state S.Store conn.old) (state S.Store conn.new) (λ _. ⊥) }
    ensures ended { conn.old.in_transaction ≡ false → conn.new.in_transaction ≡ false }
{
    match look_after(conn, error) {
        Sight::Open(fault) => fault,
        Sight::Unseen | Sight::Lost => StoreFault::Failed,
    }
}

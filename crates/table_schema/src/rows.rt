//! The rows of a tenant as values, and what a list of them is asked for with.

ghost use Rattle.std.specs.Prelude.{◌≡◌, ◌≢◌, ◌⊎◌, ◌↔◌, ◌<◌, ℤ, ℕ, List, IsTrue, IsUtf8, IfOk, IfErr, IfSome, None, Err, length, string_bytes};
ghost use Rattle.std.specs.declared.cmp.Ordering.TheVariants.{Less};
ghost use Rattle.sqlite_value.specs.declared.value.Value.TheVariants.{Int, Text as Words};
ghost use Rattle.sqlite_value.specs.Order.{Row as Values, column, value_cmp};
ghost use Rattle.sqlite_schema.specs.declared.schema.Table as schema;
ghost use Rattle.table_schema.specs.Asked.{Selects};

use crate::fault::ReadFault;
use crate::values::{ExceptionRow, StateRow};
use sqlite::{Error, ErrorCode, Row};
use std::alloc::AllocError;

/// A row of `maps`.
#[derive(Drop)]
pub struct VersionRow {
    pub version: i64,
    pub text: String,
}

/// A row of `pools_2`.
#[derive(Drop)]
pub struct PoolRow {
    pub id: i64,
    pub name: String,
    pub erasure: i64,
    pub size: i64,
    pub rule: i64,
    pub pg_num: i64,
    pub pgp_num: i64,
    pub hashpspool: i64,
    pub pairs: i64,
}

/// A row of `receipts`.
#[derive(Drop)]
pub struct ReceiptRow {
    pub request: String,
    pub path: String,
    pub body: String,
    pub status: i64,
    pub reply: String,
}

/// Returns the integer at the place `at` of the row, or `None` where there is none.
pub fn int_at(row: &Row, at: usize) -> Result<Option<i64>, AllocError>
    ensures some { IfOk result (λ o. IfSome o (λ n. (at < length row.now) × (column row.now at ≡ Int n))) }
    ensures none { IfOk result (λ o. o ≡ None → at < length row.now → (n : ℤ) → column row.now at ≢ Int n) }
{
    let read: Result<i64, Error> = row.get(at);
    match read {
        Ok(number) => Ok(Some(number)),
        Err(Error::SqliteFailure(ErrorCode::OutOfMemory)) => Err(AllocError),
        Err(_) => Ok(None),
    }
}

/// Returns the integer at the place `at` of the row.
///
/// `Err(ReadFault::Damaged)`: there is none.
pub fn int(row: &Row, at: usize) -> Result<i64, ReadFault>
    ensures some { IfOk result (λ n. (at < length row.now) × (column row.now at ≡ Int n)) }
    ensures damaged { result ≡ Err ReadFault.Damaged → at < length row.now → (n : ℤ) → column row.now at ≢ Int n }
    ensures faults { IfErr result (λ fault. (fault ≡ ReadFault.NoMemory) ⊎ (fault ≡ ReadFault.Damaged)) }
{
    match int_at(row, at)? {
        Some(number) => Ok(number),
        None => Err(ReadFault::Damaged),
    }
}

/// Returns the text at the place `at` of the row.
///
/// `Err(ReadFault::Damaged)`: there is none in UTF-8.
fn text(row: &Row, at: usize) -> Result<String, ReadFault>
    ensures some { IfOk result (λ t. (at < length row.now) × (column row.now at ≡ Words (string_bytes t))) }
    ensures damaged { result ≡ Err ReadFault.Damaged → at < length row.now → (t : List ℕ) → IsUtf8 t → column row.now at ≢ Words t }
    ensures faults { IfErr result (λ fault. (fault ≡ ReadFault.NoMemory) ⊎ (fault ≡ ReadFault.Damaged)) }
{
    let read: Result<String, Error> = row.get(at);
    match read {
        Ok(text) => Ok(text),
        Err(Error::SqliteFailure(ErrorCode::OutOfMemory)) => Err(ReadFault::NoMemory),
        Err(_) => Err(ReadFault::Damaged),
    }
}

/// Returns whether an integer comes before another, as SQL orders values.
fn is_less(first: i64, second: i64) -> bool
    ensures { IsTrue result ↔ value_cmp (Int first) (Int second) ≡ Less }
{
    first < second
}

/// A row of a tenant, without the tenant's number.
pub trait TenantRow: Sized {
    /// The values of the row.
    ghost values: { Self → Values };

    /// The values are those of a row of this type.
    ghost is_one: { Values → Type 0 };

    /// The key of a row comes before that of another.
    ghost before: { Values → Values → Type 0 };

    /// Returns the row with the values of `row`.
    ///
    /// `Err(ReadFault::Damaged)`: they are none of this type. `Err(ReadFault::NoMemory)`: an
    /// allocation failed.
    fn from_values(row: &Row) -> Result<Self, ReadFault>
        ensures some { IfOk result (λ x. row.now ≡ values x) }
        ensures damaged { result ≡ Err ReadFault.Damaged → ¬ is_one row.now }
        ensures faults { IfErr result (λ fault. (fault ≡ ReadFault.NoMemory) ⊎ (fault ≡ ReadFault.Damaged)) };

    /// Returns whether the key of `self` comes before that of `other`.
    fn is_below(&self, other: &Self) -> bool
        ensures { IsTrue result ↔ before (values self.now) (values other.now) };

    /// A law: the order of keys is transitive.
    ghost then: { (a b c : Values) → before a b → before b c → before a c };
}

/// A row that a tenant has a list of, which one query reads.
pub trait ListedRow: TenantRow {
    /// The table with the rows.
    ghost table: { schema.Table };

    /// Returns the query of the rows of the tenant `?1`, in the order of their keys.
    fn select() -> &'static str
        ensures { Selects Self.before table result.now };
}

impl TenantRow for VersionRow {
    ghost use Rattle.table_schema.specs.Found.{version_values, IsVersionRow, IsBelow};
    ghost use Rattle.table_schema.specs.Orders.{below_then};

    ghost values = { version_values };

    ghost is_one = { IsVersionRow };

    ghost before = { IsBelow };

    fn from_values(row: &Row) -> Result<VersionRow, ReadFault> {
        if row.column_count() != 2 {
            return Err(ReadFault::Damaged);
        }
        Ok(VersionRow {
            version: int(row, 0)?,
            text: text(row, 1)?,
        })
    }

    fn is_below(&self, other: &VersionRow) -> bool {
        is_less(self.version, other.version)
    }

    ghost then = { below_then };
}

impl ListedRow for VersionRow {
    ghost use Rattle.table_schema.specs.Layout.{maps_table};

    ghost table = { maps_table };

    fn select() -> &'static str {
        "SELECT version, text FROM maps WHERE tenant = ?1 ORDER BY version"
    }
}

impl TenantRow for StateRow {
    ghost use Rattle.table_schema.specs.Values.{state_row};
    ghost use Rattle.table_schema.specs.Found.{IsStateRow, IsBelow};
    ghost use Rattle.table_schema.specs.Orders.{below_then};

    ghost values = { state_row };

    ghost is_one = { IsStateRow };

    ghost before = { IsBelow };

    fn from_values(row: &Row) -> Result<StateRow, ReadFault> {
        if row.column_count() != 3 {
            return Err(ReadFault::Damaged);
        }
        Ok(StateRow {
            device: int(row, 0)?,
            reweight: int(row, 1)?,
            up: int(row, 2)?,
        })
    }

    fn is_below(&self, other: &StateRow) -> bool {
        is_less(self.device, other.device)
    }

    ghost then = { below_then };
}

impl ListedRow for StateRow {
    ghost use Rattle.table_schema.specs.Layout.{devices_table};

    ghost table = { devices_table };

    fn select() -> &'static str {
        "SELECT device, reweight, up FROM devices WHERE tenant = ?1 ORDER BY device"
    }
}

impl TenantRow for PoolRow {
    ghost use Rattle.table_schema.specs.Found.{pool_values, IsPoolRow, IsBelow};
    ghost use Rattle.table_schema.specs.Orders.{below_then};

    ghost values = { pool_values };

    ghost is_one = { IsPoolRow };

    ghost before = { IsBelow };

    fn from_values(row: &Row) -> Result<PoolRow, ReadFault> {
        if row.column_count() != 9 {
            return Err(ReadFault::Damaged);
        }
        Ok(PoolRow {
            id: int(row, 0)?,
            name: text(row, 1)?,
            erasure: int(row, 2)?,
            size: int(row, 3)?,
            rule: int(row, 4)?,
            pg_num: int(row, 5)?,
            pgp_num: int(row, 6)?,
            hashpspool: int(row, 7)?,
            pairs: int(row, 8)?,
        })
    }

    fn is_below(&self, other: &PoolRow) -> bool {
        is_less(self.id, other.id)
    }

    ghost then = { below_then };
}

impl ListedRow for PoolRow {
    ghost use Rattle.table_schema.specs.Layout.{pools_table};

    ghost table = { pools_table };

    fn select() -> &'static str {
        "SELECT id, name, erasure, size, rule, pg_num, pgp_num, hashpspool, pairs FROM pools_2 WHERE tenant = ?1 ORDER BY id"
    }
}

impl TenantRow for ReceiptRow {
    ghost use Rattle.table_schema.specs.Found.{receipt_values, IsReceiptRow, IsBelow};
    ghost use Rattle.table_schema.specs.Orders.{below_then};

    ghost values = { receipt_values };

    ghost is_one = { IsReceiptRow };

    ghost before = { IsBelow };

    fn from_values(row: &Row) -> Result<ReceiptRow, ReadFault> {
        if row.column_count() != 5 {
            return Err(ReadFault::Damaged);
        }
        Ok(ReceiptRow {
            request: text(row, 0)?,
            path: text(row, 1)?,
            body: text(row, 2)?,
            status: int(row, 3)?,
            reply: text(row, 4)?,
        })
    }

    fn is_below(&self, other: &ReceiptRow) -> bool {
        self.request.as_str() < other.request.as_str()
    }

    ghost then = { below_then };
}

impl TenantRow for ExceptionRow {
    ghost use Rattle.table_schema.specs.Values.{exception_row};
    ghost use Rattle.table_schema.specs.Found.{IsExceptionRow, Precedes};
    ghost use Rattle.table_schema.specs.Orders.{precedes_then};

    ghost values = { exception_row };

    ghost is_one = { IsExceptionRow };

    ghost before = { Precedes };

    fn from_values(row: &Row) -> Result<ExceptionRow, ReadFault> {
        if row.column_count() != 5 {
            return Err(ReadFault::Damaged);
        }
        Ok(ExceptionRow {
            pool: int(row, 0)?,
            place: int(row, 1)?,
            group: int(row, 2)?,
            from: int(row, 3)?,
            to: int(row, 4)?,
        })
    }

    /// Exceptions are ordered by pool and place.
    fn is_below(&self, other: &ExceptionRow) -> bool {
        if self.pool == other.pool {
            self.place < other.place
        } else {
            self.pool < other.pool
        }
    }

    ghost then = { precedes_then };
}

impl ListedRow for ExceptionRow {
    ghost use Rattle.table_schema.specs.Layout.{exceptions_table};

    ghost table = { exceptions_table };

    fn select() -> &'static str {
        "SELECT pool, place, grp, src, dst FROM exceptions WHERE tenant = ?1 ORDER BY pool, place"
    }
}

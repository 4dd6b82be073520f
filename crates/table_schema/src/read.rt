//! The answer of a query as values: one row or none, or a list whose keys rise.

ghost use Rattle.std.specs.Prelude.{◌≡◌, ◌≢◌, ◌⊎◌, ◌↔◌, ◌<◌, [], ◌∷◌, map, IsTrue, IfOk, IfErr, IfSome, None, Err};
ghost use Rattle.std.specs.List.{AllByRecursion};
ghost use Rattle.sqlite_trees.specs.Tree.{IsAscending};
ghost use Rattle.sqlite_value.specs.Order.{Row as Values};

use crate::fault::ReadFault;
use crate::rows::TenantRow;
use sqlite::Row;
use std::alloc::Global;

/// Returns the one row as a value, or `None` where there is no row.
///
/// `Err(ReadFault::Damaged)`: there are several rows, or the row is no row of a `T`.
pub fn one_of<T: TenantRow + Drop>(rows: &[Row]) -> Result<Option<T>, ReadFault>
    ensures some { IfOk result (λ o. IfSome o (λ x. rows.now ≡ T.values x ∷ [])) }
    ensures none { IfOk result (λ o. o ≡ None → rows.now ≡ []) }
    ensures damaged { result ≡ Err ReadFault.Damaged → (rows.now ≢ []) × ((row : Values) → T.is_one row → rows.now ≢ row ∷ []) }
    ensures faults { IfErr result (λ fault. (fault ≡ ReadFault.NoMemory) ⊎ (fault ≡ ReadFault.Damaged)) }
{
    match rows {
        [] => Ok(None),
        [row] => Ok(Some(T::from_values(row)?)),
        _ => Err(ReadFault::Damaged),
    }
}

/// Returns the values of the rows, in their order.
///
/// `Err(ReadFault::Damaged)`: one row is no row of a `T`.
fn all_in<T: TenantRow + Drop>(alloc: Global, rows: &[Row]) -> Result<Vec<T>, ReadFault>
    ensures list { IfOk result (λ list. rows.now ≡ map T.values list.items) }
    ensures damaged { result ≡ Err ReadFault.Damaged → ¬ AllByRecursion T.is_one rows.now }
    ensures faults { IfErr result (λ fault. (fault ≡ ReadFault.NoMemory) ⊎ (fault ≡ ReadFault.Damaged)) }
{
    let mut list = Vec::new(alloc);
    for row in rows {
        if list.push(T::from_values(row)?).is_err() {
            return Err(ReadFault::NoMemory);
        }
    }
    Ok(list)
}

/// Returns whether the keys of the list rise strictly.
fn rise<T: TenantRow>(list: &[T]) -> bool
    ensures { IsTrue result ↔ IsAscending T.before (map T.values list.now) }
{
    for place in 1..list.len() {
        if !list[place - 1].is_below(&list[place]) {
            return false;
        }
    }
    true
}

/// Returns the rows as values, which rise strictly by their keys.
///
/// `Err(ReadFault::Damaged)`: the keys do not rise, or one row is no row of a `T`.
pub fn rising_in<T: TenantRow + Drop>(alloc: Global, rows: &[Row]) -> Result<Vec<T>, ReadFault>
    ensures list { IfOk result (λ list. (rows.now ≡ map T.values list.items) × IsAscending T.before rows.now) }
    ensures damaged { result ≡ Err ReadFault.Damaged → AllByRecursion T.is_one rows.now → ¬ IsAscending T.before rows.now }
    ensures faults { IfErr result (λ fault. (fault ≡ ReadFault.NoMemory) ⊎ (fault ≡ ReadFault.Damaged)) }
{
    let list: Vec<T> = all_in(alloc, rows)?;
    if rise(&list) {
        Ok(list)
    } else {
        Err(ReadFault::Damaged)
    }
}

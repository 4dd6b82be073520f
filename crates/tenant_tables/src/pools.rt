//! The pools of a tenant with their exceptions, from rows of two tables.

ghost use Rattle.std.specs.Prelude.{◌≡◌, ◌≢◌, ◌<◌, ℕ, pos, List, true, map, length, ◌++◌, None, IfOk, IfSome};
ghost use Rattle.std.specs.List.{list_all};
ghost use Rattle.crush_pool.specs.Exceptions.{is_pair};
ghost use Rattle.crush_pool.specs.Pools.{is_pool};
ghost use Rattle.crush_pool.specs.declared.exceptions.Pair.{Pair as PairOfPool};
ghost use Rattle.crush_pool.specs.declared.limits.TheConstants.{GROUP_LIMIT};
ghost use Rattle.crush_pool.specs.declared.pool.PoolParts.{PoolParts as PartsOfPool};
ghost use Rattle.tenant_state.specs.Ordered.{is_ascending};
ghost use Rattle.tenant_state.specs.State.{TenantPool as PoolOfTenant, is_lower_pool};
ghost use Rattle.tenant_state.specs.Valid.{is_tenant_pool};
ghost use Rattle.table_schema.specs.Values.{exception_row};
ghost use Rattle.table_schema.specs.Found.{pool_values};
ghost use Rattle.tenant_tables.specs.Rows as spec;

use crate::parts::{flag, natural};
use crush_map::Text;
use crush_pool::{Exceptions, Pair, Pool, PoolParts, SharedExceptions};
use std::alloc::{AllocError, Global};
use std::rc::Rc;
use table_schema::rows::PoolRow;
use table_schema::values::ExceptionRow;
use tenant_state::{Pools, TenantPool};

// ---- pairs

/// Returns the pair of `row`, which has to be at `place` of the pool with the id `pool`. `None`,
/// exactly where `row` is the row of no such pair.
fn pair_from(row: &ExceptionRow, pool: u32, place: u64) -> Option<Pair>
    ensures some { IfSome result (λ p. exception_row row.now ≡ spec.row_of_pair pool place p) }
    ensures none { result ≡ None → (p : PairOfPool) → is_pair GROUP_LIMIT p ≡ true → exception_row row.now ≢ spec.row_of_pair pool place p }
{
    if u32::try_from(row.pool) != Ok(pool) || u64::try_from(row.place) != Ok(place) {
        return None;
    }
    let group = natural(row.group)?;
    let from = natural(row.from)?;
    let to = natural(row.to)?;
    Some(Pair { group, from, to })
}

/// Returns the pairs of the pool with the id `pool` from the rows of its exceptions, which have the
/// places 0, 1, .. `None`, exactly where they are the rows of no pairs. `Err(AllocError)`: an
/// allocation failed.
fn pairs_from(
    alloc: Global,
    rows: &[ExceptionRow],
    pool: u32,
) -> Result<Option<Vec<Pair>>, AllocError>
    ensures some { IfOk result (λ o. IfSome o (λ pairs. map exception_row rows.now ≡ spec.rows_of_pairs pool 0 pairs.items)) }
    ensures none { IfOk result (λ o. o ≡ None → (pairs : List PairOfPool) → list_all (is_pair GROUP_LIMIT) pairs ≡ true → map exception_row rows.now ≢ spec.rows_of_pairs pool 0 pairs) }
{
    let mut pairs = Vec::with_capacity(alloc, rows.len())?;
    for row in rows {
        let place = pairs.len() as u64;
        match pair_from(row, pool, place) {
            Some(pair) => pairs.push(pair)?,
            None => return Ok(None),
        }
    }
    Ok(Some(pairs))
}

// ---- pools

/// Returns the settings of the pool of `row`. `None`, exactly where `row` has the settings of no
/// pool.
fn settings_from(row: PoolRow) -> Option<Pool>
    ensures some { IfSome result (λ p. (is_pool p ≡ true) × (pool_values row ≡ spec.row_with_count p row.pairs)) }
    ensures none { result ≡ None → (p : PartsOfPool) → is_pool p ≡ true → pool_values row ≢ spec.row_with_count p row.pairs }
{
    let id = natural(row.id)?;
    let erasure = flag(row.erasure)?;
    let size = natural(row.size)?;
    let rule = natural(row.rule)?;
    let pg_num = natural(row.pg_num)?;
    let pgp_num = natural(row.pgp_num)?;
    let hashpspool = flag(row.hashpspool)?;
    Pool::new(PoolParts {
        id,
        name: Text::new(row.name),
        erasure,
        size,
        rule,
        pg_num,
        pgp_num,
        hashpspool,
    })
    .ok()
}

/// Returns the pool of `row` with the rows of its exceptions, which are as many as `row` says.
/// `None`, exactly where they are the rows of no pool. `Err(AllocError)`: an allocation failed.
fn pool_from(
    alloc: Global,
    row: PoolRow,
    exceptions: &[ExceptionRow],
) -> Result<Option<TenantPool>, AllocError>
    requires { row.pairs ≡ pos (length exceptions.now) }
    ensures some { IfOk result (λ o. IfSome o (λ p. (is_tenant_pool p ≡ true) × (pool_values row ≡ spec.row_of_pool p) × (map exception_row exceptions.now ≡ spec.rows_of_pairs p.parts.id 0 p.pairs))) }
    ensures none { IfOk result (λ o. o ≡ None → (p : PoolOfTenant) → is_tenant_pool p ≡ true → pool_values row ≡ spec.row_of_pool p → map exception_row exceptions.now ≢ spec.rows_of_pairs p.parts.id 0 p.pairs) }
{
    let Some(pool) = settings_from(row) else {
        return Ok(None);
    };
    let Some(pairs) = pairs_from(alloc, exceptions, pool.parts().id)? else {
        return Ok(None);
    };
    match Exceptions::new(alloc, &pool, pairs)? {
        Ok(exceptions) => {
            let exceptions = SharedExceptions::new(alloc, exceptions)?;
            Ok(Some(TenantPool::of(Rc::new(alloc, pool)?, exceptions)))
        }
        Err(_) => Ok(None),
    }
}

/// Returns the first `count` rows and the rows that follow them, or `None` where there are fewer.
fn split(rows: &[ExceptionRow], count: i64) -> Option<(&[ExceptionRow], &[ExceptionRow])>
    ensures some { IfSome result (λ r. (rows.now ≡ r.0.now ++ r.1.now) × (count ≡ pos (length r.0.now))) }
    ensures none { result ≡ None → (n : ℕ) → count ≡ pos n → length rows.now < n }
{
    let count = usize::try_from(count).ok()?;
    if count > rows.len() {
        return None;
    }
    Some(rows.split_at(count))
}

/// Returns the pools of `rows`, in the order of their ids, with the pairs of `exceptions`, by pool
/// and place: each pool has as many as its row says, with the places 0, 1, .., and no row is of
/// another pool. `None`, exactly where they are the rows of no pools. `Err(AllocError)`: an
/// allocation failed.
pub fn pools_from(
    alloc: Global,
    rows: Vec<PoolRow>,
    exceptions: &[ExceptionRow],
) -> Result<Option<Pools>, AllocError>
    ensures some { IfOk result (λ o. IfSome o (λ pools. (list_all is_tenant_pool pools ≡ true) × (is_ascending is_lower_pool pools ≡ true) × (map pool_values rows.items ≡ map spec.row_of_pool pools) × (map exception_row exceptions.now ≡ spec.rows_of_exceptions pools))) }
    ensures none { IfOk result (λ o. o ≡ None → (pools : List PoolOfTenant) → list_all is_tenant_pool pools ≡ true → is_ascending is_lower_pool pools ≡ true → map pool_values rows.items ≡ map spec.row_of_pool pools → map exception_row exceptions.now ≢ spec.rows_of_exceptions pools) }
{
    let mut pools = Vec::with_capacity(alloc, rows.len())?;
    let mut left = exceptions;
    for row in rows {
        let Some((own, behind)) = split(left, row.pairs) else {
            return Ok(None);
        };
        match pool_from(alloc, row, own)? {
            Some(pool) => pools.push(Rc::new(alloc, pool)?)?,
            None => return Ok(None),
        }
        left = behind;
    }
    if !left.is_empty() {
        return Ok(None);
    }
    Ok(Pools::from_list(pools))
}

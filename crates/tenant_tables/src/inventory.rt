//! What a tenant has, from its rows.

ghost use Rattle.std.specs.Prelude.{◌≡◌, ◌↔◌, map, None, IfOk, IfSome, IsTrue};
ghost use Rattle.std.specs.List.{list_any};
ghost use Rattle.std.specs.Str.{bytes_eq};
ghost use Rattle.tenant_state.specs.State.{Inventory as Has, have_rules};
ghost use Rattle.tenant_state.specs.Valid.{are_named_once};
ghost use Rattle.tenant_tables.specs.Lists.{IsOfState, AreRowsOf};

use crate::parts::{states_from, versions_from};
use crate::pools::pools_from;
use crush_text::written_maps_are_read_back;
use std::alloc::{AllocError, Global};
use std::rc::Rc;
use table_schema::rows::{PoolRow, VersionRow};
use table_schema::values::{ExceptionRow, StateRow};
use tenant_state::limits::{POOL_LIMIT, RECEIPT_LIMIT, VERSION_LIMIT};
use tenant_state::{Inventory, TenantPool, Versions};

/// Returns whether one of `pools` has the name `name`.
fn is_one_named(name: &str, pools: &[Rc<TenantPool>]) -> bool
    ensures { result ≡ list_any (λ p. bytes_eq p.value.parts.name name.now) pools.now }
{
    pools.iter().any(|pool| pool.parts().name.as_str() == name)
}

/// Returns the same as `is_one_named`. Its contract speaks of the pools' parts.
fn is_named(name: &str, pools: &[Rc<TenantPool>]) -> bool
    ensures { result ≡ list_any (λ p. bytes_eq p.parts.name name.now) (map (λ p. p.value) pools.now) }
{
    is_one_named(name, pools)
}

/// Returns whether no two pools have one name.
fn are_named_once(pools: &[Rc<TenantPool>]) -> bool
    ensures { result ≡ are_named_once (map (λ p. p.value) pools.now) }
{
    let mut rest = pools;
    while let [pool, others @ ..] = rest {
        if is_named(pool.parts().name.as_str(), others) {
            return false;
        }
        rest = others;
    }
    true
}

/// Returns whether the newest version has the rule of each pool.
fn have_rules(inventory: &Inventory) -> bool
    ensures { result ≡ have_rules inventory.now }
{
    match inventory.version(inventory.newest()) {
        Some(version) => inventory.has_rules_in(version.map()),
        None => inventory.pools().as_slice().is_empty(),
    }
}

/// Returns whether `inventory` is what some state has: it is within the limits, no two pools have
/// one name, and the newest version has each pool's rule.
fn is_of_state(inventory: &Inventory) -> bool
    ensures { IsTrue result ↔ IsOfState inventory.now }
{
    inventory.epoch() <= RECEIPT_LIMIT as u64
        && inventory.versions().len() <= VERSION_LIMIT
        && inventory.pools().len() <= POOL_LIMIT
        && are_named_once(inventory.pools().as_slice())
        && have_rules(inventory)
}

/// Returns what the tenant with `epoch` and the rows has. Each list of rows is in the order of its
/// keys. `None`, exactly where they are the rows of no state. `Err(AllocError)`: an allocation
/// failed.
pub fn inventory_from(
    alloc: Global,
    epoch: i64,
    versions: Vec<VersionRow>,
    states: Vec<StateRow>,
    pools: Vec<PoolRow>,
    exceptions: &[ExceptionRow],
) -> Result<Option<Rc<Inventory>>, AllocError>
    ensures some { IfOk result (λ o. IfSome o (λ i. IsOfState i.value × AreRowsOf i.value epoch versions.items states.items pools.items exceptions.now)) }
    ensures none { IfOk result (λ o. o ≡ None → (i : Has) → IsOfState i → ¬ AreRowsOf i epoch versions.items states.items pools.items exceptions.now) }
{
    written_maps_are_read_back();
    let Ok(epoch) = u64::try_from(epoch) else {
        return Ok(None);
    };
    let Some(versions) = versions_from(alloc, versions)? else {
        return Ok(None);
    };
    let Some(devices) = states_from(alloc, states)? else {
        return Ok(None);
    };
    let Some(pools) = pools_from(alloc, pools, exceptions)? else {
        return Ok(None);
    };
    let shared = Versions::of(alloc, versions)?;
    let inventory = Inventory::of(shared, devices, pools, epoch);
    if is_of_state(&inventory) {
        Ok(Some(Rc::new(alloc, inventory)?))
    } else {
        Ok(None)
    }
}

//! What is kept for queries of a tenant: placements of groups, and the values for reports.

ghost use Rattle.std.specs.Prelude.{◌≡◌, ◌≤◌, ◌⊎◌, ℕ, List, Contains, Ok, Some, IfSome};
ghost use Rattle.crush_cache.specs.Caches.{KeepsNumbers};
ghost use Rattle.tenant_core.specs.Cached.{Says, answer_on};
ghost use Rattle.tenant_core.specs.tenant_resources.specs.Groups as groups;
ghost use Rattle.tenant_cache.specs.Kept.{kept_at};
ghost use Rattle.tenant_cache.specs.Ready.{AreNumbersOf, HasNumber, IsWithNumber, Renumbers};
ghost use Rattle.tenant_state.specs.State.{pool as pool_at};

use crate::bound::Bound;
use crate::kept::KeptTenants;
use crate::ready::ReadyTenant;
use crate::reports::{Reports, moved, touched};
use crush_cache::PlacementCache;
use crush_pool::Placement;
use std::alloc::Global;
use std::rc::Rc;
use tenant_core::{CachedAnswer, Question};
use tenant_state::{Inventory, TenantPool};

/// Returns the number that is kept beside what a tenant has for the content of a pool, while the
/// cache still has that content.
fn number_beside(cache: &PlacementCache, ready: &ReadyTenant, pool: &TenantPool) -> Option<u64>
    ensures number { IfSome result (λ n. Contains ready.now.numbers (pool.now.parts.id, n)) }
    ensures there { IfSome result (λ n. cache.now.first ≤ n) }
{
    let number = ready.number_of(pool.id())?;
    if cache.has(number) {
        Some(number)
    } else {
        None
    }
}

/// Gets a number from the cache for the content of a tenant's pool on the newest version.
fn give_number(cache: &mut PlacementCache, inventory: &Inventory, pool: &TenantPool) -> Option<u64>
    ensures number { IfSome result (λ n. HasNumber cache.new inventory.now pool.now n) }
    ensures there { IfSome result (λ n. cache.new.first ≤ n) }
    ensures kept { KeepsNumbers cache.old cache.new }
{
    let version = inventory.version(inventory.newest())?;
    let Ok(content) = inventory.content(version, pool) else {
        return None;
    };
    cache.number_of(content)
}

/// Keeps a number for the content of a pool beside what the tenant `name` has, unless an allocation
/// fails.
fn keep_number<B: Bound>(
    alloc: Global,
    kept: &mut KeptTenants<B>,
    name: &str,
    ready: &ReadyTenant,
    pool: &TenantPool,
    number: u64,
)
    ensures { (u : List ℕ) (r : _) → kept_at kept.new u ≡ Some r → (kept_at kept.old u ≡ Some r) ⊎ ((u ≡ name.now) × IsWithNumber ready.now pool.now.parts.id number r) }
{
    let Ok(next) = ready.with_number(alloc, pool.id(), number) else {
        return;
    };
    let Ok(key) = String::from_str(alloc, name) else {
        return;
    };
    let Ok(next) = Rc::new(alloc, next) else {
        return;
    };
    kept.put(key, next);
}

/// Returns the number of the content of a tenant's pool on the newest version: the one that is kept
/// beside what the tenant has, or a new one, which is then kept.
fn number_for<B: Bound>(
    alloc: Global,
    cache: &mut PlacementCache,
    kept: &mut KeptTenants<B>,
    name: &str,
    ready: &ReadyTenant,
    pool: &TenantPool,
) -> Option<u64>
    requires known { AreNumbersOf cache.old ready.now }
    requires there { pool_at pool.now.parts.id ready.now.inventory ≡ Some pool.now }
    ensures number { IfSome result (λ n. HasNumber cache.new ready.now.inventory pool.now n) }
    ensures live { IfSome result (λ n. cache.new.first ≤ n) }
    ensures keeps { KeepsNumbers cache.old cache.new }
    ensures beside { Renumbers name.now ready.now cache.new kept.old kept.new }
{
    if let Some(number) = number_beside(cache, ready, pool) {
        return Some(number);
    }
    let number = give_number(cache, ready.inventory(), pool)?;
    keep_number(alloc, kept, name, ready, pool, number);
    Some(number)
}

/// Places a group of a tenant's pool, the number of whose content is `number`, or finds its
/// placement in the cache.
fn place(
    cache: &mut PlacementCache,
    number: u64,
    inventory: &Inventory,
    pool: &TenantPool,
    group: u32,
) -> Option<Rc<Placement>>
    requires number { HasNumber cache.old inventory.now pool.now number }
    requires live { cache.old.first ≤ number }
    ensures placed { IfSome result (λ r. groups.placed inventory.now pool.now group ≡ Ok r.value) }
    ensures same { cache.new ≡ cache.old }
{
    let Ok(placer) = inventory.on_newest(pool) else {
        return None;
    };
    let Ok(Ok(placement)) = cache.place_known(number, &placer, group) else {
        return None;
    };
    Some(placement)
}

/// Finds the placement of a group of a tenant's pool in the cache, or places the group.
fn placed<B: Bound>(
    alloc: Global,
    cache: &mut PlacementCache,
    kept: &mut KeptTenants<B>,
    name: &str,
    ready: &ReadyTenant,
    pool: &TenantPool,
    group: u32,
) -> Option<Rc<Placement>>
    requires known { AreNumbersOf cache.old ready.now }
    requires there { pool_at pool.now.parts.id ready.now.inventory ≡ Some pool.now }
    ensures placed { IfSome result (λ r. groups.placed ready.now.inventory pool.now group ≡ Ok r.value) }
    ensures keeps { KeepsNumbers cache.old cache.new }
    ensures beside { Renumbers name.now ready.now cache.new kept.old kept.new }
{
    let inventory: &Inventory = ready.inventory();
    let number = number_for(alloc, cache, kept, name, ready, pool)?;
    place(cache, number, inventory, pool, group)
}

/// Finds what is asked of a tenant's pool, from what is kept, or from what is made now and kept.
pub(crate) fn find<'q, B: Bound>(
    alloc: Global,
    cache: &mut PlacementCache,
    kept: &mut KeptTenants<B>,
    reports: &mut Reports,
    name: &str,
    ready: &ReadyTenant,
    pool: &TenantPool,
    asked: Question<'q>,
) -> Option<CachedAnswer<'q>>
    requires known { AreNumbersOf cache.old ready.now }
    requires there { pool_at pool.now.parts.id ready.now.inventory ≡ Some pool.now }
    ensures found { IfSome result (λ r. Says ready.now.inventory r (answer_on ready.now.inventory asked.entry (Some pool.now))) }
    ensures keeps { KeepsNumbers cache.old cache.new }
    ensures beside { Renumbers name.now ready.now cache.new kept.old kept.new }
{
    let inventory: &Inventory = ready.inventory();
    match asked {
        Question::Group(group) => {
            if group >= u64::from(pool.parts().pg_num) {
                return None;
            }
            let group = group as u32;
            let placement = placed(alloc, cache, kept, name, ready, pool, group)?;
            Some(CachedAnswer::Placed(group, placement))
        }
        Question::Object(object) => {
            let group = pool.pool().group_of_hash(object.hash());
            let placement = placed(alloc, cache, kept, name, ready, pool, group)?;
            Some(CachedAnswer::Located(object, group, placement))
        }
        Question::Device(device) => {
            let groups = touched(alloc, reports, name, inventory, pool, device)?;
            Some(CachedAnswer::Touched(pool.id(), device, groups))
        }
        Question::Versions(from, to) => {
            let rows = moved(alloc, reports, name, inventory, pool, from, to)?;
            Some(CachedAnswer::Moved(pool.id(), from, to, rows))
        }
    }
}

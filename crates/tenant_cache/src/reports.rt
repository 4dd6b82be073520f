//! The values that are kept for reports of all groups of a pool, and what reports find in them.

ghost use Rattle.std.specs.Prelude.{◌≡◌, ◌≤◌, ◌*◌, Ok, Some, IfSome};
ghost use Rattle.crush_pool.specs.Contents.{content_of};
ghost use Rattle.crush_map.specs.Map.{IsMap};
ghost use Rattle.crush_pool.specs.crush_choose.specs.declared.limits.TheConstants.{SIZE_LIMIT};
ghost use Rattle.crush_pool.specs.declared.limits.TheConstants.{GROUP_LIMIT};
ghost use Rattle.crush_report.specs.Moves.{gained_in};
ghost use Rattle.crush_report.specs.Reports.{impact, moves};
ghost use Rattle.tenant_reports.specs.Impact.{groups_of};
ghost use Rattle.tenant_reports.specs.Moves.{rows_of};

use crate::bound::Bound;
use crate::kept::KeptTenants;
use crate::last::{Last, is_left, is_of_tenant, renew};
use crush_map::Sequence;
use crush_pool::{Content, Placer};
use crush_report::{MoveRow, Touches, UpLists};
use std::alloc::Global;
use tenant_reports::impact::id_of;
use tenant_state::{Inventory, TenantPool};

/// Which groups each device can touch, and the up lists of all groups: of the content that was
/// asked for last, and of that of the version from which moves were asked last.
#[derive(Drop)]
pub struct Reports {
    touches: Option<Last<Touches>>,
    lists: Option<Last<UpLists>>,
}

impl Reports {
    /// Makes a cache that keeps nothing yet. Allocates nothing.
    pub fn new() -> Self {
        Reports {
            touches: None,
            lists: None,
        }
    }

    /// Frees the values for tenants of which nothing is kept by name.
    pub fn give_up_left<B: Bound>(&mut self, kept: &KeptTenants<B>) {
        if is_left(&self.touches, kept) {
            self.touches = None;
        }
        if is_left(&self.lists, kept) {
            self.lists = None;
        }
    }

    /// Frees the touched groups that are kept, if the tenant `name` asked for them.
    pub fn give_up_touches(&mut self, name: &str) {
        if is_of_tenant(&self.touches, name) {
            self.touches = None;
        }
    }
}

/// Finds the groups that a device can touch, from the value that is kept, which is found anew if it
/// is for another content. `content` is that of the placer. `None` where the value can't be kept,
/// or an allocation failed.
fn find_touched(
    alloc: Global,
    last: &mut Option<Last<Touches>>,
    name: &str,
    content: Content,
    placer: &Placer<'_>,
    device: u32,
) -> Option<Sequence<u32>>
    requires content { content ≡ content_of placer.now }
    requires map { IsMap placer.now.map }
    ensures { IfSome result (λ groups. Some groups ≡ impact placer.now.map placer.now.states placer.now.pool placer.now.pairs device) }
{
    renew(alloc, last, name, content, placer);
    match last {
        Some(last) => last.groups_of(alloc, device),
        None => None,
    }
}

/// Finds the groups that move from one placer to another, of the same pool, from the up lists on
/// `from`, whose content is `content`: from those that are kept, which are found anew if they are
/// for another content. `None` where they can't be kept, or an allocation failed.
fn find_moved(
    alloc: Global,
    last: &mut Option<Last<UpLists>>,
    name: &str,
    content: Content,
    from: &Placer<'_>,
    to: &Placer<'_>,
) -> Option<Sequence<MoveRow>>
    requires content { content ≡ content_of from.now }
    requires map { IsMap from.now.map }
    requires states { from.now.states ≡ to.now.states }
    requires pool { from.now.pool ≡ to.now.pool }
    requires pairs { from.now.pairs ≡ to.now.pairs }
    ensures rows { IfSome result (λ rows. Some rows ≡ moves from.now.map to.now.map from.now.states from.now.pool from.now.pairs) }
    ensures gained { IfSome result (λ rows. gained_in rows ≤ SIZE_LIMIT * GROUP_LIMIT) }
{
    renew(alloc, last, name, content, from);
    match last {
        Some(last) => last.moves_to(alloc, to),
        None => None,
    }
}

/// Finds the groups of a tenant's pool that the device with the number `device` can touch.
pub(crate) fn touched(
    alloc: Global,
    reports: &mut Reports,
    name: &str,
    inventory: &Inventory,
    pool: &TenantPool,
    device: u64,
) -> Option<Sequence<u32>>
    ensures { IfSome result (λ groups. groups_of inventory.now pool.now device ≡ Ok groups) }
{
    let version = inventory.version(inventory.newest())?;
    let Ok(placer) = inventory.on_version(version, pool) else {
        return None;
    };
    let Ok(content) = inventory.content(version, pool) else {
        return None;
    };
    let device = id_of(placer.map().devices(), device)?;
    find_touched(alloc, &mut reports.touches, name, content, &placer, device)
}

/// Finds the groups of a tenant's pool that move from the version `from` to the version `to`.
pub(crate) fn moved(
    alloc: Global,
    reports: &mut Reports,
    name: &str,
    inventory: &Inventory,
    pool: &TenantPool,
    from: u64,
    to: u64,
) -> Option<Sequence<MoveRow>>
    ensures rows { IfSome result (λ rows. rows_of inventory.now pool.now from to ≡ Ok rows) }
    ensures gained { IfSome result (λ rows. gained_in rows ≤ SIZE_LIMIT * GROUP_LIMIT) }
{
    let before = inventory.version(from)?;
    let after = inventory.version(to)?;
    let Ok(old) = inventory.on_version(before, pool) else {
        return None;
    };
    let Ok(new) = inventory.on_version(after, pool) else {
        return None;
    };
    let Ok(content) = inventory.content(before, pool) else {
        return None;
    };
    find_moved(alloc, &mut reports.lists, name, content, &old, &new)
}

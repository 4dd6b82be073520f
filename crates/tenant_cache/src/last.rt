//! What reports need of all groups of a pool, kept for the content that was asked for last.

ghost use Rattle.std.specs.Prelude.{◌≡◌, true, IfOk, IfSome};
ghost use Rattle.crush_pool.specs.Contents.{content_of};
ghost use Rattle.crush_map.specs.Map.{IsMap};
ghost use Rattle.crush_pool.specs.Placers.{PoolOnMap};

use crate::bound::Bound;
use crate::kept::KeptTenants;
use crush_map::Sequence;
use crush_pool::{Content, Placer};
use crush_report::{MoveRow, Touches, UpLists, moves_from};
use crush_text::canonical_texts_are_read;
use std::alloc::{AllocError, Global};
use std::marker::Model;

/// What is found of all groups of a pool at once: which devices touch them, or their up lists.
pub trait OfGroups: Drop {
    /// The value is that of the groups of a pool on a map.
    ghost are_on: { PoolOnMap → Self → Type 0 };

    /// Finds the value for the groups of the placer's pool; returns `None` where it is too large to
    /// be kept. `Err(AllocError)`: an allocation failed.
    fn build(alloc: Global, placer: &Placer<'_>) -> Result<Option<Self>, AllocError>
        ensures { IfOk result (λ built. IfSome built (are_on placer.now)) };
}

impl OfGroups for Touches {
    ghost use Rattle.crush_report.specs.Touches.{AreTouchesOn};

    ghost are_on = { AreTouchesOn };

    fn build(alloc: Global, placer: &Placer<'_>) -> Result<Option<Self>, AllocError> {
        Touches::build(alloc, placer)
    }
}

impl OfGroups for UpLists {
    ghost use Rattle.crush_report.specs.UpLists.{AreUpListsOn};

    ghost are_on = { AreUpListsOn };

    fn build(alloc: Global, placer: &Placer<'_>) -> Result<Option<Self>, AllocError> {
        UpLists::build(alloc, placer)
    }
}

/// What was found for a content, with the name of the tenant that asked; nothing where it is too
/// large to be kept. Contracts see the content and what was found.
#[derive(Drop)]
pub struct Last<G: OfGroups> {
    tenant: String,
    content: Content,
    found: Option<G>,
}

impl<G: OfGroups> Model for Last<G> {
    ghost use Rattle.std.specs.Prelude.{IfSome};
    ghost use Rattle.tenant_cache.specs.Last.{IsOf, OfContent};

    ghost Value = { OfContent G };

    ghost view = { λ a. record { content = a.content; found = a.found } };

    ghost invariant = { λ a. IfSome a.found (IsOf G.are_on a.content) };
}

impl<G: OfGroups> Last<G> {
    ghost use Rattle.std.specs.Prelude.{◌≡◌, true, IfOk};
    ghost use Rattle.crush_pool.specs.Contents.{content_of};
    ghost use Rattle.crush_map.specs.Map.{IsMap};

    /// Finds the value for the groups of the placer's pool, whose content is `content`.
    /// `Err(AllocError)`: an allocation failed.
    fn build(
        alloc: Global,
        name: &str,
        content: Content,
        placer: &Placer<'_>,
    ) -> Result<Self, AllocError>
        requires content { content ≡ content_of placer.now }
        requires map { IsMap placer.now.map }
        ensures { IfOk result (λ last. last.content ≡ content) }
    {
        // what is found on this map holds on each map with its text, since that is this map alone
        canonical_texts_are_read();
        let tenant = String::from_str(alloc, name)?;
        let found = G::build(alloc, placer)?;
        Ok(Last {
            tenant,
            content,
            found,
        })
    }

    /// Returns the name of the tenant that asked.
    fn tenant(&self) -> &str {
        let _content = &self.content;
        self.tenant.as_str()
    }

    /// Returns whether the value was found for `content`.
    fn is_of(&self, content: &Content) -> bool
        ensures { result ≡ true → self.now.content ≡ content.now }
    {
        self.content == *content
    }
}

impl Last<Touches> {
    ghost use Rattle.std.specs.Prelude.{◌≡◌, Some, IfSome};
    ghost use Rattle.crush_pool.specs.Contents.{content_of};
    ghost use Rattle.crush_map.specs.Map.{IsMap};
    ghost use Rattle.crush_pool.specs.Placers.{PoolOnMap};
    ghost use Rattle.crush_report.specs.Reports.{impact};

    /// Finds the groups that a device can touch. `None` where nothing is kept, or an allocation
    /// failed.
    pub(crate) fn groups_of(&self, alloc: Global, device: u32) -> Option<Sequence<u32>>
        ensures { IfSome result (λ groups. (p : PoolOnMap) → IsMap p.map → self.now.content ≡ content_of p → Some groups ≡ impact p.map p.states p.pool p.pairs device) }
    {
        let Some(touches) = &self.found else {
            return None;
        };
        match touches.groups_of(alloc, device) {
            Ok(groups) => Some(groups),
            Err(_) => None,
        }
    }
}

impl Last<UpLists> {
    ghost use Rattle.std.specs.Prelude.{◌≡◌, ◌≤◌, ◌*◌, Some, IfSome};
    ghost use Rattle.crush_pool.specs.Contents.{content_of};
    ghost use Rattle.crush_pool.specs.crush_choose.specs.declared.limits.TheConstants.{SIZE_LIMIT};
    ghost use Rattle.crush_map.specs.Map.{IsMap};
    ghost use Rattle.crush_pool.specs.Placers.{PoolOnMap};
    ghost use Rattle.crush_pool.specs.declared.limits.TheConstants.{GROUP_LIMIT};
    ghost use Rattle.crush_report.specs.Moves.{gained_in};
    ghost use Rattle.crush_report.specs.Reports.{moves};

    /// Finds the groups that move from the map of the content to that of the placer `to`, of the
    /// same pool. `None` where no lists are kept, or an allocation failed.
    pub(crate) fn moves_to(&self, alloc: Global, to: &Placer<'_>) -> Option<Sequence<MoveRow>>
        ensures rows { IfSome result (λ rows. (p : PoolOnMap) → IsMap p.map → self.now.content ≡ content_of p → p.states ≡ to.now.states → p.pool ≡ to.now.pool → p.pairs ≡ to.now.pairs
            → Some rows ≡ moves p.map to.now.map p.states p.pool p.pairs) }
        ensures gained { IfSome result (λ rows. gained_in rows ≤ SIZE_LIMIT * GROUP_LIMIT) }
    {
        let Some(lists) = &self.found else {
            return None;
        };
        match moves_from(alloc, lists, to) {
            Ok(rows) => Some(rows),
            Err(_) => None,
        }
    }
}

/// Returns whether the kept value was found for the tenant `name`.
pub(crate) fn is_of_tenant<G: OfGroups>(last: &Option<Last<G>>, name: &str) -> bool {
    match last {
        Some(last) => last.tenant() == name,
        None => false,
    }
}

/// Returns whether a value is kept that was found for a tenant of which nothing is kept by name.
pub(crate) fn is_left<G: OfGroups, B: Bound>(
    last: &Option<Last<G>>,
    kept: &KeptTenants<B>,
) -> bool {
    match last {
        Some(last) => !kept.has(last.tenant()),
        None => false,
    }
}

/// Returns whether the kept value was found for `content`.
fn is_of<G: OfGroups>(last: &Option<Last<G>>, content: &Content) -> bool
    ensures { result ≡ true → IfSome last.now (λ last. last.content ≡ content.now) }
{
    match last {
        Some(last) => last.is_of(content),
        None => false,
    }
}

/// Keeps the value for the content of a placer, which is found anew if another one is kept. Where
/// an allocation fails nothing is kept.
pub(crate) fn renew<G: OfGroups>(
    alloc: Global,
    last: &mut Option<Last<G>>,
    name: &str,
    content: Content,
    placer: &Placer<'_>,
)
    requires content { content ≡ content_of placer.now }
    requires map { IsMap placer.now.map }
    ensures { IfSome last.new (λ last. last.content ≡ content_of placer.now) }
{
    if is_of(last, &content) {
        return;
    }
    // the memory of the earlier value is freed first
    *last = None;
    if let Ok(made) = Last::build(alloc, name, content, placer) {
        *last = Some(made);
    }
}

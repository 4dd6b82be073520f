//! A store that keeps ready what tenants have in another store.

ghost use Rattle.std.specs.Prelude.{◌≡◌, ◌≢◌, ◌⊎◌, ◌↔◌, ℕ, List, Bool, true, false, Option, Some, None, Err, IfOk, OnOk, OnErr, option_map};
ghost use Rattle.tenant_state.specs.State.{CanMake, TenantState, fresh, after};
ghost use Rattle.tenant_state.specs.Receipts.{receipt_of};
ghost use Rattle.tenant_core.specs.States.{Found, HasInventory, IsDamaged, LeavesAsItWas, LeavesAsItWasOr, Same, Shows};
ghost use Rattle.tenant_core.specs.StoreReply.{is_failed};

use crate::bound::Bound;
use crate::kept::KeptTenants;
use crate::placing::find;
use crate::ready::ReadyTenant;
use crate::reports::Reports;
use crush_cache::PlacementCache;
use std::alloc::{AllocError, Global};
use std::marker::Model;
use std::num::NonZeroUsize;
use std::rc::Rc;
use tenant_core::{CachedAnswer, Query, StoreFault, TenantStore};
use tenant_state::{Change, Inventory, Receipt};

/// A store over another one, which keeps in memory what the tenants that were used last have (at
/// most the bound `B` of it, or one tenant's),
/// placements of their groups, and the values for reports. The values are found by the whole
/// content that they depend on, so that after a change they are of use only where it left the
/// content unchanged. They are freed where their tenant isn't kept any more or a tenant is removed,
/// and touched groups where the tenant that asked for them changes. Contracts see the store below
/// alone.
#[derive(Drop)]
pub struct CachedStore<T: TenantStore, B: Bound> {
    alloc: Global,
    below: T,
    kept: KeptTenants<B>,
    cache: PlacementCache,
    reports: Reports,
    /// Whether the store below has what tenants have in memory, and shares it at a load.
    shares: bool,
}

impl<T: TenantStore, B: Bound> Model for CachedStore<T, B> {
    ghost use Rattle.std.specs.Prelude.{◌≡◌, false};
    ghost use Rattle.tenant_cache.specs.Ready.{AreKnown, AreTrue};

    ghost Value = { T };

    ghost coded = { T.code };

    ghost view = { λ a. a.below };

    ghost invariant = { λ a. record {
      states : T.is_honest a.below → T.latched a.below ≡ false → AreTrue (T.has_state a.below) a.kept;
      numbers : AreKnown a.cache a.kept;
    } };
}

impl<T: TenantStore + Drop, B: Bound> CachedStore<T, B> {
    ghost use Rattle.std.specs.Prelude.{◌≡◌, IfErr, IfOk};

    /// Makes a store over `below`, which also keeps `placements` placements. Nothing is kept yet.
    /// `Err((AllocError, below))`: an allocation failed; the store below is given back.
    pub fn over(alloc: Global, below: T, placements: NonZeroUsize) -> Result<Self, (AllocError, T)>
        ensures made { IfOk result (λ store. store ≡ below) }
        ensures refused { IfErr result (λ refused. refused.1 ≡ below) }
    {
        let Ok(kept) = KeptTenants::new(alloc) else {
            return Err((AllocError, below));
        };
        let Ok(cache) = PlacementCache::new(alloc, placements) else {
            return Err((AllocError, below));
        };
        Ok(CachedStore {
            alloc,
            kept,
            cache,
            reports: Reports::new(),
            below,
            shares: false,
        })
    }

    /// Makes a store over one that has what all tenants have in memory; it also keeps `placements`
    /// placements. What it keeps is shared with `below`, also after a change. Nothing is kept yet.
    /// `Err(AllocError)`: an allocation failed; the store below is dropped.
    pub fn over_memory(
        alloc: Global,
        below: T,
        placements: NonZeroUsize,
    ) -> Result<Self, AllocError>
        ensures { IfOk result (λ store. store ≡ below) }
    {
        Ok(CachedStore {
            alloc,
            kept: KeptTenants::new(alloc)?,
            cache: PlacementCache::new(alloc, placements)?,
            reports: Reports::new(),
            below,
            shares: true,
        })
    }
}

impl<T: TenantStore, B: Bound> CachedStore<T, B> {
    ghost use Rattle.std.specs.Prelude.{◌≡◌, false, Some};
    ghost use Rattle.tenant_core.specs.States.{HasInventory};

    /// Returns the store below. Allocates nothing.
    pub fn into_below(self) -> T
        ensures { result ≡ self }
    {
        let CachedStore { below, .. } = self;
        below
    }

    /// Keeps what a tenant has, unless an allocation fails.
    fn keep(&mut self, name: &str, inventory: &Rc<Inventory>)
        requires { T.is_honest self.old → T.latched self.old ≡ false → HasInventory (T.has_state self.old) name.now (Some inventory.now.value) }
        ensures { self.new ≡ self.old }
    {
        let shared: Result<Rc<Inventory>, AllocError> = inventory.clone();
        let Ok(shared) = shared else {
            return;
        };
        let Ok(key) = String::from_str(self.alloc, name) else {
            return;
        };
        let Ok(ready) = Rc::new(self.alloc, ReadyTenant::new(self.alloc, shared)) else {
            return;
        };
        self.kept.put(key, ready);
        self.reports.give_up_left(&self.kept);
    }

    /// Makes a change of a tenant, as `commit`, and keeps what the store below then has of it.
    fn commit_shared(&mut self, name: &str, change: &Change) -> Result<(), StoreFault>
        requires open { T.latched self.old ≡ false }
        requires there { T.is_honest self.old → (s : TenantState) × T.has_state self.old name.now (Some s) × CanMake change.now s }
        ensures made { T.is_honest self.new → (s : TenantState) → T.has_state self.old name.now (Some s) → OnOk result (T.has_state self.new name.now (Some (after change.now s))) }
        ensures others { T.is_honest self.new → T.latched self.new ≡ false → (t : List ℕ) (s : Option TenantState) → t ≢ name.now → (T.has_state self.old t s ↔ T.has_state self.new t s) }
        ensures err { T.is_honest self.new → T.latched self.new ≡ false → OnErr result (T.keeps self.old self.new) }
        ensures damaged { T.is_honest self.new → result ≢ Err StoreFault.Damaged }
        ensures latch { T.latched self.new ≡ is_failed result }
        ensures crash { T.is_honest self.new → T.latched self.new ≡ true → (s : TenantState) → T.has_state self.old name.now (Some s)
            → LeavesAsItWasOr name.now (Some (after change.now s)) (T.has_state self.old) (T.may_leave self.new) }
        ensures honest { T.is_honest self.new → T.is_honest self.old }
    {
        self.kept.forget(name);
        self.below.commit(name, change)?;
        // where this load fails the change is still made; a load that fails for good is an error of
        // the call
        match self.load(name) {
            Err(StoreFault::Failed) => Err(StoreFault::Failed),
            _ => Ok(()),
        }
    }

    /// Makes a change of a tenant, as `commit`, and keeps what the tenant then has, which is made
    /// before the change from what was kept.
    fn commit_kept(&mut self, name: &str, change: &Change) -> Result<(), StoreFault>
        requires open { T.latched self.old ≡ false }
        requires there { T.is_honest self.old → (s : TenantState) × T.has_state self.old name.now (Some s) × CanMake change.now s }
        ensures made { T.is_honest self.new → (s : TenantState) → T.has_state self.old name.now (Some s) → OnOk result (T.has_state self.new name.now (Some (after change.now s))) }
        ensures others { T.is_honest self.new → T.latched self.new ≡ false → (t : List ℕ) (s : Option TenantState) → t ≢ name.now → (T.has_state self.old t s ↔ T.has_state self.new t s) }
        ensures err { T.is_honest self.new → T.latched self.new ≡ false → OnErr result (T.keeps self.old self.new) }
        ensures damaged { T.is_honest self.new → result ≢ Err StoreFault.Damaged }
        ensures latch { T.latched self.new ≡ is_failed result }
        ensures crash { T.is_honest self.new → T.latched self.new ≡ true → (s : TenantState) → T.has_state self.old name.now (Some s)
            → LeavesAsItWasOr name.now (Some (after change.now s)) (T.has_state self.old) (T.may_leave self.new) }
        ensures honest { T.is_honest self.new → T.is_honest self.old }
    {
        if let Some(ready) = self.kept.get(name)? {
            // everything that allocates comes before the change
            if let Some(next) = ready.after(self.alloc, change)? {
                let key = String::from_str(self.alloc, name)?;
                self.below.commit(name, change)?;
                self.kept.put(key, next);
                self.reports.give_up_left(&self.kept);
                return Ok(());
            }
        }
        self.kept.forget(name);
        self.below.commit(name, change)
    }

    /// Frees the touched groups that are kept, if the tenant `name` asked for them.
    fn give_up_touches(&mut self, name: &str)
        ensures { self.new ≡ self.old }
    {
        self.reports.give_up_touches(name);
    }
}

impl<T: TenantStore, B: Bound> TenantStore for CachedStore<T, B> {
    ghost use Rattle.std.specs.Prelude.{◌≡◌, ℕ, List, false};

    ghost is_honest = { λ store. T.is_honest store };

    ghost has_state = { λ store name s. T.has_state store name s };

    ghost latched = { λ store. T.latched store };

    ghost may_leave = { λ store name found. T.may_leave store name found };

    ghost keeps = { λ old new. T.keeps old new };

    fn is_latched(&self) -> bool {
        self.below.is_latched()
    }

    fn load(&mut self, name: &str) -> Result<Option<Rc<Inventory>>, StoreFault> {
        if let Some(ready) = self.kept.get(name)? {
            return Ok(Some(ready.inventory().clone()?));
        }
        let found = self.below.load(name)?;
        if let Some(inventory) = &found {
            self.keep(name, inventory);
        }
        Ok(found)
    }

    fn find_receipt(
        &mut self,
        name: &str,
        number: &str,
    ) -> Result<Option<Rc<Receipt>>, StoreFault> {
        self.below.find_receipt(name, number)
    }

    fn cached<'q>(
        &mut self,
        name: &str,
        query: &'q Query,
    ) -> Option<(Rc<Inventory>, CachedAnswer<'q>)> {
        let (id, asked) = query.asked()?;
        let Ok(Some(ready)) = self.kept.get(name) else {
            return None;
        };
        let pool = ready.inventory().pools().get(id)?;
        let cached = find(
            self.alloc,
            &mut self.cache,
            &mut self.kept,
            &mut self.reports,
            name,
            &ready,
            pool,
            asked,
        )?;
        let Ok(inventory) = ready.inventory().clone() else {
            return None;
        };
        Some((inventory, cached))
    }

    fn create(&mut self, name: &str) -> Result<(), StoreFault> {
        self.kept.forget(name);
        self.below.create(name)
    }

    fn commit(&mut self, name: &str, change: &Change) -> Result<(), StoreFault> {
        self.give_up_touches(name);
        if self.shares {
            self.commit_shared(name, change)
        } else {
            self.commit_kept(name, change)
        }
    }

    fn remove(&mut self, name: &str) -> Result<(), StoreFault> {
        self.reports = Reports::new();
        self.kept.forget(name);
        self.below.remove(name)
    }

    ghost one_state = { λ store t s u honest works is also. T.one_state store t s u honest works is also };

    ghost are_states = { λ store t s honest works has. T.are_states store t s honest works has };

    ghost keeps_itself = { λ store. T.keeps_itself store };

    ghost keeps_both = { λ old mid new first second. T.keeps_both old mid new first second };

    ghost keeps_states = { λ old new honest worked works same. T.keeps_states old new honest worked works same };

    ghost settled = { λ store t found honest works there. T.settled store t found honest works there };
}

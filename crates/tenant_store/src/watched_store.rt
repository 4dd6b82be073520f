//! A store over another one, whose files are watched.

ghost use Rattle.std.specs.Prelude.{◌≡◌, ◌≢◌, ◌⊎◌, ◌↔◌, ℕ, List, Bool, true, false, Option, Some, None, Err, IfOk, IfSome, OnOk, OnErr, option_map};
ghost use Rattle.tenant_core.specs.tenant_state.specs.State.{CanMake, TenantState, fresh, after};
ghost use Rattle.tenant_core.specs.States.{LeavesAsItWasOr};
ghost use Rattle.tenant_core.specs.StoreReply.{is_failed};
ghost use Rattle.tenant_store.specs.Looks.{FindsFiles, next_look};

use crate::watch::Watch;
use std::marker::Model;
use std::rc::Rc;
use tenant_core::{CachedAnswer, Change, Inventory, Query, Receipt, StoreFault, TenantStore};

/// A store over another one. A change is made only where the files of the store below are where
/// they were, and answered as made only where they still are: else the store fails for good. So no
/// change is acknowledged that the next opening doesn't find because the files were removed, moved
/// or cut before. Contracts see the store below, the watch on its files, and whether those were
/// missed.
#[derive(Drop)]
pub struct WatchedStore<T: TenantStore, W: Watch> {
    below: T,
    watch: W,
    has_missed: bool,
}

impl<T: TenantStore, W: Watch> Model for WatchedStore<T, W> {
    ghost use Rattle.std.specs.Prelude.{Bool};
    ghost use Rattle.std.specs.Coded.{coded×, coded_bool};

    ghost Value = { (T × W) × Bool };

    ghost coded = { coded× (coded× T.code W.code) coded_bool };

    ghost view = { λ a. ((a.below, a.watch), a.has_missed) };
}

impl<T: TenantStore, W: Watch> WatchedStore<T, W> {
    ghost use Rattle.std.specs.Prelude.{◌≡◌, ◌||◌, not, true, false};
    ghost use Rattle.tenant_store.specs.Looks.{Looks};

    /// Makes a store over `below`, whose files `watch` looks at. Allocates nothing.
    pub fn over(below: T, watch: W) -> Self
        ensures { result ≡ ((below, watch), false) }
    {
        WatchedStore {
            below,
            watch,
            has_missed: false,
        }
    }

    /// Looks at the files before a change, and returns whether they are missed; the store then
    /// fails for good.
    fn misses_before(&mut self) -> bool
        ensures below { self.new.0.0 ≡ self.old.0.0 }
        ensures missed { self.new.1 ≡ (self.old.1 || result) }
        ensures looks { Looks (not result) (W.looks_before self.old.0.1) (W.looks_before self.new.0.1) }
        ensures other { W.looks_after self.new.0.1 ≡ W.looks_after self.old.0.1 }
    {
        let is_whole = self.watch.is_whole();
        self.has_missed = self.has_missed || !is_whole;
        !is_whole
    }

    /// Looks at the files after a change, and returns whether the change was made (`is_made`) and
    /// they are missed; the store then fails for good.
    fn misses_after(&mut self, is_made: bool) -> bool
        ensures below { self.new.0.0 ≡ self.old.0.0 }
        ensures missed { self.new.1 ≡ (self.old.1 || result) }
        ensures made { result ≡ true → is_made ≡ true }
        ensures looks { is_made ≡ true → Looks (not result) (W.looks_after self.old.0.1) (W.looks_after self.new.0.1) }
    {
        let is_there = self.watch.is_there();
        let is_missed = is_made && !is_there;
        self.has_missed = self.has_missed || is_missed;
        is_missed
    }
}

impl<T: TenantStore, W: Watch + Drop> WatchedStore<T, W> {
    ghost use Rattle.std.specs.Prelude.{◌≡◌};

    /// Returns the store below. Allocates nothing.
    pub fn into_below(self) -> T
        ensures { result ≡ self.0.0 }
    {
        let WatchedStore { below, .. } = self;
        below
    }
}

impl<T: TenantStore, W: Watch> TenantStore for WatchedStore<T, W> {
    ghost use Rattle.std.specs.Prelude.{◌≡◌, ◌||◌, ℕ, List, false};
    ghost use Rattle.tenant_store.specs.Laws.{works_below};

    ghost is_honest = { λ store. T.is_honest store.0.0 };

    ghost has_state = { λ store name s. T.has_state store.0.0 name s };

    ghost latched = { λ store. T.latched store.0.0 || store.1 };

    ghost may_leave = { λ store name found. T.may_leave store.0.0 name found };

    ghost keeps = { λ old new. T.keeps old.0.0 new.0.0 };

    fn is_latched(&self) -> bool {
        self.has_missed || self.below.is_latched()
    }

    fn load(&mut self, name: &str) -> Result<Option<Rc<Inventory>>, StoreFault> {
        self.below.load(name)
    }

    fn find_receipt(
        &mut self,
        name: &str,
        number: &str,
    ) -> Result<Option<Rc<Receipt>>, StoreFault> {
        self.below.find_receipt(name, number)
    }

    fn cached<'q>(
        &mut self,
        name: &str,
        query: &'q Query,
    ) -> Option<(Rc<Inventory>, CachedAnswer<'q>)> {
        self.below.cached(name, query)
    }

    fn create(&mut self, name: &str) -> Result<(), StoreFault>
        requires open { (T.latched self.old.0.0 || self.old.1) ≡ false }
        requires absent { T.is_honest self.old.0.0 → T.has_state self.old.0.0 name.now None }
        ensures made { T.is_honest self.new.0.0 → OnOk result (T.has_state self.new.0.0 name.now (Some fresh)) }
        ensures others { T.is_honest self.new.0.0 → (T.latched self.new.0.0 || self.new.1) ≡ false → (t : List ℕ) (s : Option TenantState) → t ≢ name.now → (T.has_state self.old.0.0 t s ↔ T.has_state self.new.0.0 t s) }
        ensures err { T.is_honest self.new.0.0 → (T.latched self.new.0.0 || self.new.1) ≡ false → OnErr result (T.keeps self.old.0.0 self.new.0.0) }
        ensures damaged { T.is_honest self.new.0.0 → result ≢ Err StoreFault.Damaged }
        ensures latch { (T.latched self.new.0.0 || self.new.1) ≡ is_failed result }
        ensures crash { T.is_honest self.new.0.0 → (T.latched self.new.0.0 || self.new.1) ≡ true → LeavesAsItWasOr name.now (Some fresh) (T.has_state self.old.0.0) (T.may_leave self.new.0.0) }
        ensures honest { T.is_honest self.new.0.0 → T.is_honest self.old.0.0 }
        ensures looked { OnOk result (FindsFiles (W.looks_before self.old.0.1) × FindsFiles (W.looks_after self.old.0.1)) }
        ensures missed { IfSome (W.looks_before self.old.0.1) (λ looks. next_look looks ≡ false → (self.new.0.0 ≡ self.old.0.0) × (result ≡ Err StoreFault.Failed)) }
    {
        if self.misses_before() {
            return Err(StoreFault::Failed);
        }
        let made = self.below.create(name);
        if self.misses_after(made.is_ok()) {
            return Err(StoreFault::Failed);
        }
        made
    }

    fn commit(&mut self, name: &str, change: &Change) -> Result<(), StoreFault>
        requires open { (T.latched self.old.0.0 || self.old.1) ≡ false }
        requires there { T.is_honest self.old.0.0 → (s : TenantState) × T.has_state self.old.0.0 name.now (Some s) × CanMake change.now s }
        ensures made { T.is_honest self.new.0.0 → (s : TenantState) → T.has_state self.old.0.0 name.now (Some s) → OnOk result (T.has_state self.new.0.0 name.now (Some (after change.now s))) }
        ensures others { T.is_honest self.new.0.0 → (T.latched self.new.0.0 || self.new.1) ≡ false → (t : List ℕ) (s : Option TenantState) → t ≢ name.now → (T.has_state self.old.0.0 t s ↔ T.has_state self.new.0.0 t s) }
        ensures err { T.is_honest self.new.0.0 → (T.latched self.new.0.0 || self.new.1) ≡ false → OnErr result (T.keeps self.old.0.0 self.new.0.0) }
        ensures damaged { T.is_honest self.new.0.0 → result ≢ Err StoreFault.Damaged }
        ensures latch { (T.latched self.new.0.0 || self.new.1) ≡ is_failed result }
        ensures crash { T.is_honest self.new.0.0 → (T.latched self.new.0.0 || self.new.1) ≡ true → (s : TenantState) → T.has_state self.old.0.0 name.now (Some s)
            → LeavesAsItWasOr name.now (Some (after change.now s)) (T.has_state self.old.0.0) (T.may_leave self.new.0.0) }
        ensures honest { T.is_honest self.new.0.0 → T.is_honest self.old.0.0 }
        ensures looked { OnOk result (FindsFiles (W.looks_before self.old.0.1) × FindsFiles (W.looks_after self.old.0.1)) }
        ensures missed { IfSome (W.looks_before self.old.0.1) (λ looks. next_look looks ≡ false → (self.new.0.0 ≡ self.old.0.0) × (result ≡ Err StoreFault.Failed)) }
    {
        if self.misses_before() {
            return Err(StoreFault::Failed);
        }
        let made = self.below.commit(name, change);
        if self.misses_after(made.is_ok()) {
            return Err(StoreFault::Failed);
        }
        made
    }

    fn remove(&mut self, name: &str) -> Result<(), StoreFault>
        requires open { (T.latched self.old.0.0 || self.old.1) ≡ false }
        requires there { T.is_honest self.old.0.0 → (s : TenantState) × T.has_state self.old.0.0 name.now (Some s) }
        ensures made { T.is_honest self.new.0.0 → OnOk result (T.has_state self.new.0.0 name.now None) }
        ensures others { T.is_honest self.new.0.0 → (T.latched self.new.0.0 || self.new.1) ≡ false → (t : List ℕ) (s : Option TenantState) → t ≢ name.now → (T.has_state self.old.0.0 t s ↔ T.has_state self.new.0.0 t s) }
        ensures err { T.is_honest self.new.0.0 → (T.latched self.new.0.0 || self.new.1) ≡ false → OnErr result (T.keeps self.old.0.0 self.new.0.0) }
        ensures damaged { T.is_honest self.new.0.0 → result ≢ Err StoreFault.Damaged }
        ensures latch { (T.latched self.new.0.0 || self.new.1) ≡ is_failed result }
        ensures crash { T.is_honest self.new.0.0 → (T.latched self.new.0.0 || self.new.1) ≡ true → LeavesAsItWasOr name.now None (T.has_state self.old.0.0) (T.may_leave self.new.0.0) }
        ensures honest { T.is_honest self.new.0.0 → T.is_honest self.old.0.0 }
        ensures looked { OnOk result (FindsFiles (W.looks_before self.old.0.1) × FindsFiles (W.looks_after self.old.0.1)) }
        ensures missed { IfSome (W.looks_before self.old.0.1) (λ looks. next_look looks ≡ false → (self.new.0.0 ≡ self.old.0.0) × (result ≡ Err StoreFault.Failed)) }
    {
        if self.misses_before() {
            return Err(StoreFault::Failed);
        }
        let made = self.below.remove(name);
        if self.misses_after(made.is_ok()) {
            return Err(StoreFault::Failed);
        }
        made
    }

    ghost one_state = { λ store t s u honest works is also. T.one_state store.0.0 t s u honest (works_below _ _ works) is also };

    ghost are_states = { λ store t s honest works has. T.are_states store.0.0 t s honest (works_below _ _ works) has };

    ghost keeps_itself = { λ store. T.keeps_itself store.0.0 };

    ghost keeps_both = { λ old mid new first second. T.keeps_both old.0.0 mid.0.0 new.0.0 first second };

    ghost keeps_states = { λ old new honest worked works same. T.keeps_states old.0.0 new.0.0 honest (works_below _ _ worked) (works_below _ _ works) same };

    ghost settled = { λ store t found honest works there. T.settled store.0.0 t found honest (works_below _ _ works) there };
}

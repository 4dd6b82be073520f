//! A store that counts its loads, and answers one call with a fault.

ghost use Rattle.std.specs.Prelude.{◌≡◌, ◌≢◌, ◌↔◌, ◌||◌, ℕ, List, Bool, true, false, Option, Some, None, Err, IfOk, OnOk, OnErr, option_map};
ghost use Rattle.tenant_state.specs.Receipts.{receipt_of};
ghost use Rattle.tenant_state.specs.State.{CanMake, TenantState, fresh, after};
ghost use Rattle.tenant_core.specs.States.{Found, HasInventory, IsDamaged, LeavesAsItWas, LeavesAsItWasOr, Same, Shows};
ghost use Rattle.tenant_core.specs.StoreReply.{is_failed};

use std::cell::Cell;
use std::rc::Rc;
use tenant_core::{StoreFault, TenantStore};
use tenant_state::{Change, Inventory, Receipt};

/// A fault that each call of a store may meet.
#[derive(Clone, Copy)]
pub(crate) enum Fault {
    NoMemory,
    Full,
    Failed,
}

/// A store over another one. The call that meets the fault doesn't reach the store below.
#[derive(Drop)]
pub(crate) struct Watched<T: TenantStore> {
    pub(crate) below: T,
    /// How many calls of `load` have reached the store below.
    pub(crate) loads: Rc<Cell<u64>>,
    /// How many calls come before the one that meets the fault.
    pub(crate) left: u64,
    pub(crate) fault: Fault,
    pub(crate) has_failed: bool,
}

impl<T: TenantStore> Watched<T> {
    ghost use Rattle.std.specs.Prelude.{◌≡◌, ◌≢◌, false, Err};
    ghost use Rattle.tenant_core.specs.StoreReply.{is_failed};

    /// Counts a call down, and answers with the fault if it is the call that meets it.
    fn meet(&mut self) -> Result<(), StoreFault>
        requires { self.old.has_failed ≡ false }
        ensures below { self.new.below ≡ self.old.below }
        ensures latch { self.new.has_failed ≡ is_failed result }
        ensures damaged { result ≢ Err StoreFault.Damaged }
    {
        if self.left > 0 {
            self.left -= 1;
            return Ok(());
        }
        self.left = u64::MAX;
        match self.fault {
            Fault::NoMemory => Err(StoreFault::NoMemory),
            Fault::Full => Err(StoreFault::Full),
            Fault::Failed => {
                self.has_failed = true;
                Err(StoreFault::Failed)
            }
        }
    }
}

impl<T: TenantStore> TenantStore for Watched<T> {
    ghost use Rattle.std.specs.Prelude.{◌≡◌, ◌||◌, ℕ, List, false};
    ghost use Rattle.std.proofs.lemmas.Bool.{or_parts};

    ghost is_honest = { λ store. T.is_honest store.below };

    ghost has_state = { λ store name s. T.has_state store.below name s };

    ghost latched = { λ store. store.has_failed || T.latched store.below };

    ghost may_leave = { λ store name found. T.may_leave store.below name found };

    ghost keeps = { λ old new. T.keeps old.below new.below };

    fn is_latched(&self) -> bool {
        self.has_failed || self.below.is_latched()
    }

    fn load(&mut self, name: &str) -> Result<Option<Rc<Inventory>>, StoreFault> {
        self.meet()?;
        self.loads.set(self.loads.get().wrapping_add(1));
        self.below.load(name)
    }

    fn find_receipt(
        &mut self,
        name: &str,
        number: &str,
    ) -> Result<Option<Rc<Receipt>>, StoreFault> {
        self.meet()?;
        self.below.find_receipt(name, number)
    }

    fn create(&mut self, name: &str) -> Result<(), StoreFault> {
        self.meet()?;
        self.below.create(name)
    }

    fn commit(&mut self, name: &str, change: &Change) -> Result<(), StoreFault> {
        self.meet()?;
        self.below.commit(name, change)
    }

    fn remove(&mut self, name: &str) -> Result<(), StoreFault> {
        self.meet()?;
        self.below.remove(name)
    }

    ghost one_state = { λ store t s u honest works is also. T.one_state store.below t s u honest (or_parts store.has_failed (T.latched store.below) works).1 is also };

    ghost are_states = { λ store t s honest works has. T.are_states store.below t s honest (or_parts store.has_failed (T.latched store.below) works).1 has };

    ghost keeps_itself = { λ store. T.keeps_itself store.below };

    ghost keeps_both = { λ old mid new first second. T.keeps_both old.below mid.below new.below first second };

    ghost keeps_states = { λ old new honest worked works same. T.keeps_states old.below new.below honest (or_parts old.has_failed (T.latched old.below) worked).1 (or_parts new.has_failed (T.latched new.below) works).1 same };

    ghost settled = { λ store t found honest works there. T.settled store.below t found honest (or_parts store.has_failed (T.latched store.below) works).1 there };
}

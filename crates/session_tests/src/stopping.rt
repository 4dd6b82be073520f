//! A store whose calls fail for good from one of them on, and which a later service opens again.

ghost use Rattle.std.specs.Prelude.{◌≡◌, Err};
ghost use Rattle.tenant_core.specs.StoreReply.{is_failed};

use std::rc::Rc;
use tenant_core::{Change, Inventory, Receipt, StoreFault, TenantStore};
use tenant_service::MemoryStore;

/// A store over one in memory, which stands for a disk: it outlives a stop.
#[derive(Drop)]
pub(crate) struct Stopping {
    pub(crate) disk: MemoryStore,
    /// How many calls come before the one that stops.
    pub(crate) left: u32,
    /// Whether the call that stops has changed the disk, if it is one that changes it.
    pub(crate) is_late: bool,
    pub(crate) has_failed: bool,
}

impl Stopping {
    ghost use Rattle.std.specs.Prelude.{◌≡◌, false};

    /// Returns whether the call is the one that stops. The store is then latched.
    fn stops(&mut self) -> bool
        requires { self.old.has_failed ≡ false }
        ensures latch { self.new.has_failed ≡ result }
        ensures disk { self.new.disk ≡ self.old.disk }
    {
        if self.left == 0 {
            self.has_failed = true;
            return true;
        }
        self.left -= 1;
        false
    }
}

impl TenantStore for Stopping {
    ghost use Rattle.std.specs.Prelude.{◌≡◌, ℕ, List};
    ghost use Rattle.std.proofs.Common.{◌∙◌, refl, sym};
    ghost use Rattle.tenant_core.specs.States.{Shows};

    ghost is_honest = { λ store. Unit {0} };

    ghost has_state = { λ store name s. ⟦<MemoryStore as TenantStore>⟧.has_state store.disk name s };

    ghost latched = { λ store. store.has_failed };

    // a crash leaves what the disk holds
    ghost may_leave = { λ store name found. Shows (⟦<MemoryStore as TenantStore>⟧.has_state store.disk) name found };

    ghost keeps = { λ old new. ⟦<MemoryStore as TenantStore>⟧.keeps old.disk new.disk };

    fn is_latched(&self) -> bool {
        self.has_failed
    }

    fn load(&mut self, name: &str) -> Result<Option<Rc<Inventory>>, StoreFault> {
        if self.stops() {
            return Err(StoreFault::Failed);
        }
        self.disk.load(name)
    }

    fn find_receipt(
        &mut self,
        name: &str,
        number: &str,
    ) -> Result<Option<Rc<Receipt>>, StoreFault> {
        if self.stops() {
            return Err(StoreFault::Failed);
        }
        self.disk.find_receipt(name, number)
    }

    fn create(&mut self, name: &str) -> Result<(), StoreFault> {
        if !self.stops() {
            return self.disk.create(name);
        }
        if self.is_late {
            let _written = self.disk.create(name);
        }
        Err(StoreFault::Failed)
    }

    fn commit(&mut self, name: &str, change: &Change) -> Result<(), StoreFault> {
        if !self.stops() {
            return self.disk.commit(name, change);
        }
        if self.is_late {
            let _written = self.disk.commit(name, change);
        }
        Err(StoreFault::Failed)
    }

    fn remove(&mut self, name: &str) -> Result<(), StoreFault> {
        if !self.stops() {
            return self.disk.remove(name);
        }
        if self.is_late {
            let _written = self.disk.remove(name);
        }
        Err(StoreFault::Failed)
    }

    ghost one_state = { λ store t s u honest works is also. sym is ∙ also };

    ghost are_states = { λ store t s honest works has. store.disk.are_states t s has };

    ghost keeps_itself = { λ store u. refl };

    ghost keeps_both = { λ old mid new first second u. second u ∙ first u };

    ghost keeps_states = { λ old new honest worked works same t s. (λ has. same t ∙ has, λ has. sym (same t) ∙ has) };

    ghost settled = { λ store t found honest works there. there };
}

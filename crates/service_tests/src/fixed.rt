//! A store in which the state of each name is fixed, and which fails for good after a given number
//! of loads.

ghost use Rattle.std.specs.Prelude.{◌≡◌, false, IfOk};
ghost use Rattle.tenant_core.specs.tenant_state.specs.State.{fresh, inventory_of};
ghost use Rattle.service_tests.specs.Fixed.{begins_with};

use std::alloc::{AllocError, Global};
use std::rc::Rc;
use tenant_core::{Change, Inventory, Receipt, StoreFault, TenantStore};
use tenant_service::Service;

fn begins_with(byte: u8, name: &str) -> bool
    ensures { result ≡ begins_with byte name.now }
{
    match name.as_bytes() {
        [] => false,
        [first, ..] => *first == byte,
    }
}

fn fresh_tenant(alloc: Global) -> Result<Rc<Inventory>, AllocError>
    ensures { IfOk result (λ inventory. inventory.value ≡ inventory_of fresh) }
{
    Ok(Rc::new(alloc, Inventory::fresh(alloc)?)?)
}

/// A full store. The data of each name that begins with `d` is damaged, each that begins with `b`
/// is a tenant that was just created, and the others are absent. It serves `left` calls of `load`,
/// and fails for good at the next one.
#[derive(Drop)]
pub(crate) struct FixedStore {
    alloc: Global,
    left: u32,
    has_failed: bool,
}

impl TenantStore for FixedStore {
    ghost use Rattle.std.specs.Prelude.{◌≡◌, false};
    ghost use Rattle.std.proofs.Common.{◌∙◌, sym};
    ghost use Rattle.service_tests.specs.Fixed.{begins_with, state_of};
    ghost use Rattle.service_tests.specs.Fresh.{states_are};

    ghost is_honest = { λ store. Unit {0} };

    ghost has_state = { λ store name s. (begins_with 100 name ≡ false) × (s ≡ state_of name) };

    ghost latched = { λ store. store.has_failed };

    ghost may_leave = { λ store name found. ⊥ };

    // the store has no data that changes
    ghost keeps = { λ old new. Unit {0} };

    fn is_latched(&self) -> bool {
        self.has_failed
    }

    fn load(&mut self, name: &str) -> Result<Option<Rc<Inventory>>, StoreFault> {
        if self.left == 0 {
            self.has_failed = true;
            return Err(StoreFault::Failed);
        }
        self.left -= 1;
        if begins_with(b'd', name) {
            Err(StoreFault::Damaged)
        } else if begins_with(b'b', name) {
            Ok(Some(fresh_tenant(self.alloc)?))
        } else {
            Ok(None)
        }
    }

    fn find_receipt(
        &mut self,
        _name: &str,
        _number: &str,
    ) -> Result<Option<Rc<Receipt>>, StoreFault> {
        Ok(None)
    }

    fn create(&mut self, _name: &str) -> Result<(), StoreFault> {
        Err(StoreFault::Full)
    }

    fn commit(&mut self, _name: &str, _change: &Change) -> Result<(), StoreFault> {
        Err(StoreFault::Full)
    }

    fn remove(&mut self, _name: &str) -> Result<(), StoreFault> {
        Err(StoreFault::Full)
    }

    ghost one_state = { λ store t s u honest works is also. is.1 ∙ sym also.1 };

    ghost are_states = { λ store t s honest works is. states_are t s is.1 };

    ghost keeps_itself = { λ store. tt };

    ghost keeps_both = { λ old mid new first second. tt };

    ghost keeps_states = { λ old new honest worked works same t s. (λ has. has, λ has. has) };

    ghost settled = { λ store t found honest works there. absurd there };
}

/// Makes a service over a store that serves `left` loads. `Err(AllocError)`: an allocation failed.
pub(crate) fn over_fixed(alloc: Global, left: u32) -> Result<Service<FixedStore>, AllocError>
    ensures { IfOk result (λ service. service.has_failed ≡ false) }
{
    let store = FixedStore {
        alloc,
        left,
        has_failed: false,
    };
    Service::over(alloc, store)
}

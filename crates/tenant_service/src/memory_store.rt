//! A store of states in memory.

ghost use Rattle.std.specs.Prelude.{◌≡◌, ℕ, List, Some, None, OnOk, OnErr, if◌then◌else◌, option_map};
ghost use Rattle.std.specs.Str.{bytes_eq};
ghost use Rattle.std.specs.BTreeMap.{get_by_text};
ghost use Rattle.tenant_core.specs.tenant_state.specs.State.{CanMake, TenantState, after};
ghost use Rattle.tenant_core.specs.tenant_state.specs.Valid.{IsState};

use crate::service::Service;
use std::alloc::{AllocError, Global};
use std::collections::BTreeMap;
use std::rc::Rc;
use tenant_core::{Change, Inventory, Receipt, StoreFault, TenantState, TenantStore};

type States = BTreeMap<String, TenantState>;

/// Makes a change of the state of a name, if it has one. `Err(AllocError)`: an allocation failed;
/// nothing is changed.
fn change_named(
    alloc: Global,
    states: &mut States,
    name: &str,
    change: &Change,
) -> Result<(), AllocError>
    requires { (s : TenantState) → get_by_text states.old name.now ≡ Some s → CanMake change.now s }
    ensures ok { OnOk result ((u : List ℕ) → get_by_text states.new u
        ≡ (if bytes_eq name.now u then option_map (after change.now) (get_by_text states.old u) else get_by_text states.old u)) }
    ensures err { OnErr result ((u : List ℕ) → get_by_text states.new u ≡ get_by_text states.old u) }
    ensures states { ((u : List ℕ) (s : TenantState) → get_by_text states.old u ≡ Some s → IsState s)
        → (u : List ℕ) (s : TenantState) → get_by_text states.new u ≡ Some s → IsState s }
{
    match states.get_mut(name) {
        Some(state) => state.change(alloc, change),
        None => Ok(()),
    }
}

/// Stores the state of a name. `Err(AllocError)`: an allocation failed; nothing is changed.
fn put(alloc: Global, states: &mut States, name: &str, state: TenantState) -> Result<(), AllocError>
    ensures ok { OnOk result ((u : List ℕ) → get_by_text states.new u
        ≡ (if bytes_eq name.now u then Some state else get_by_text states.old u)) }
    ensures err { OnErr result ((u : List ℕ) → get_by_text states.new u ≡ get_by_text states.old u) }
{
    let key = String::from_str(alloc, name)?;
    states.insert(key, state)?;
    Ok(())
}

/// Removes the state of a name, if it has one. Allocates nothing.
fn take_out(states: &mut States, name: &str)
    ensures { (u : List ℕ) → get_by_text states.new u
        ≡ (if bytes_eq name.now u then None else get_by_text states.old u) }
{
    let _state = states.remove(name);
}

/// A store that holds the states of all tenants in memory: they are gone when it is dropped.
#[derive(Drop)]
pub struct MemoryStore {
    alloc: Global,
    states: States,
    ghost are_states: { (name : List ℕ) (s : TenantState) → get_by_text states name ≡ Some s → IsState s },
}

impl MemoryStore {
    ghost use Rattle.std.specs.Prelude.{ℕ, List, None};

    /// Makes a store without tenants. Allocates nothing.
    pub fn new(alloc: Global) -> Self
        ensures { (name : List ℕ) → ⟦<MemoryStore as TenantStore>⟧.has_state result name None }
    {
        MemoryStore {
            alloc,
            states: BTreeMap::new(alloc),
        }
    }
}

impl TenantStore for MemoryStore {
    ghost use Rattle.std.specs.Prelude.{◌≡◌, ℕ, List, false};
    ghost use Rattle.std.proofs.Common.{◌∙◌, refl, sym};
    ghost use Rattle.std.specs.BTreeMap.{get_by_text};

    ghost is_honest = { λ store. Unit {0} };

    ghost has_state = { λ store name s. get_by_text store.states name ≡ s };

    ghost latched = { λ store. false };

    // a crash leaves nothing of memory
    ghost may_leave = { λ store name found. ⊥ };

    ghost keeps = { λ old new. (u : List ℕ) → get_by_text new.states u ≡ get_by_text old.states u };

    fn is_latched(&self) -> bool {
        false
    }

    fn load(&mut self, name: &str) -> Result<Option<Rc<Inventory>>, StoreFault> {
        match self.states.get(name) {
            Some(state) => Ok(Some(state.inventory().clone()?)),
            None => Ok(None),
        }
    }

    fn find_receipt(
        &mut self,
        name: &str,
        number: &str,
    ) -> Result<Option<Rc<Receipt>>, StoreFault> {
        match self.states.get(name) {
            Some(state) => Ok(state.receipts().find(number)?),
            None => Ok(None),
        }
    }

    fn create(&mut self, name: &str) -> Result<(), StoreFault> {
        put(
            self.alloc,
            &mut self.states,
            name,
            TenantState::fresh(self.alloc)?,
        )?;
        Ok(())
    }

    fn commit(&mut self, name: &str, change: &Change) -> Result<(), StoreFault> {
        change_named(self.alloc, &mut self.states, name, change)?;
        Ok(())
    }

    fn remove(&mut self, name: &str) -> Result<(), StoreFault> {
        take_out(&mut self.states, name);
        Ok(())
    }

    ghost one_state = { λ store t s u honest works is also. sym is ∙ also };

    ghost are_states = { λ store t s honest works has. store.are_states t s has };

    ghost keeps_itself = { λ store u. refl };

    ghost keeps_both = { λ old mid new first second u. second u ∙ first u };

    ghost keeps_states = { λ old new honest worked works same t s. (λ has. same t ∙ has, λ has. sym (same t) ∙ has) };

    ghost settled = { λ store t found honest works there. absurd there };
}

impl Service<MemoryStore> {
    ghost use Rattle.std.specs.Prelude.{ℕ, List, None, IfOk};

    /// Makes a service over a new store in memory, which has no tenant. By
    /// `memory_stores_are_honest` the headline holds of this service without a premise.
    /// `Err(AllocError)`: an allocation failed; nothing is changed.
    pub fn in_memory(alloc: Global) -> Result<Self, AllocError>
        ensures { IfOk result (λ service. (name : List ℕ) → ⟦<MemoryStore as TenantStore>⟧.has_state service name None) }
    {
        Service::over(alloc, MemoryStore::new(alloc))
    }
}

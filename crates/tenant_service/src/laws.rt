//! Laws of the store in memory, and of sessions: each contract is about the definitions alone, or
//! about every such store.

ghost use Rattle.std.specs.Prelude.{◌≡◌, ℕ, List, false, Option, Ok, Some, None};
ghost use Rattle.tenant_core.specs.tenant_state.specs.State.{TenantState};
ghost use Rattle.tenant_service.specs.declared.memory_store.MemoryStore.{MemoryStore};
ghost use Rattle.tenant_core.specs.Commands.{Command};
ghost use Rattle.tenant_core.specs.Request.{request_of};
ghost use Rattle.tenant_core.specs.Step.{step};
ghost use Rattle.tenant_core.specs.declared.request.Action.{Action};
ghost use Rattle.tenant_service.specs.History.{Explains, IsHistoryFor, Kept, Session, joined};
ghost use Rattle.tenant_service.specs.Repeats.{ActsOnce, command_of, number_of};
ghost use Rattle.tenant_core.specs.tenant_messages.specs.declared.call.Call.{Call};
ghost use Rattle.tenant_core.specs.tenant_state.specs.Receipts.{receipt_of};
ghost use Rattle.tenant_core.specs.tenant_state.specs.declared.receipts.Receipt.{Receipt};

use crate::memory_store::MemoryStore;
use tenant_core::TenantStore;

/// Every store in memory is honest and never latched, and in each of them a name has exactly one
/// state, or is absent.
pub fn memory_stores_are_honest()
    ensures honest { (store : MemoryStore) → ⟦<MemoryStore as TenantStore>⟧.is_honest store }
    ensures works { (store : MemoryStore) → ⟦<MemoryStore as TenantStore>⟧.latched store ≡ false }
    ensures some_state { (store : MemoryStore) (name : List ℕ) → (s : Option TenantState) × ⟦<MemoryStore as TenantStore>⟧.has_state store name s }
    ensures one_state { (store : MemoryStore) (name : List ℕ) (s u : Option TenantState) → ⟦<MemoryStore as TenantStore>⟧.has_state store name s → ⟦<MemoryStore as TenantStore>⟧.has_state store name u → s ≡ u }
{}

/// The history law: for every history and each tenant there is one list of kept calls that explains
/// what the tenant saw, and in that list each numbered call acts once.
pub fn history()
    ensures { (t : List ℕ) (first : Session) (later : List Session) → IsHistoryFor t first later
        → (parts : List (List Kept)) × Explains t first later parts × ActsOnce (first.found t) (joined parts) }
{}

/// A call whose request number has a receipt changes nothing, whatever it asks for.
pub fn a_number_with_a_receipt_changes_nothing()
    ensures { (call : Call) (number : List ℕ) (s : TenantState) (r : Receipt) → number_of call ≡ Some number → receipt_of number s.receipts ≡ Some r
        → (step call (Some s)).state ≡ Some s }
{}

/// Only a drop of its tenant removes a receipt: as long as the tenant exists, it has the receipt,
/// and the only call after which the tenant doesn't exist is one that drops it.
pub fn only_a_drop_takes_a_receipt_away()
    ensures stays { (call : Call) (number : List ℕ) (s u : TenantState) (r : Receipt) → receipt_of number s.receipts ≡ Some r → (step call (Some s)).state ≡ Some u
        → receipt_of number u.receipts ≡ Some r }
    ensures drops { (call : Call) (s : TenantState) → (step call (Some s)).state ≡ None
        → (tenant : List ℕ) × (request_of call ≡ Ok (record { tenant = tenant; action = Action.DropTenant })) }
{}

/// The path and the body of a changing request, by which a repeat is recognized, are those of its
/// call.
pub fn a_changing_request_has_the_path_and_the_body_of_its_call()
    ensures path { (call : Call) (command : Command) → command_of call ≡ Some command → command.path ≡ call.path }
    ensures body { (call : Call) (command : Command) → command_of call ≡ Some command → command.body ≡ call.body }
{}

//! The store of tenants' states: its contract, and the replies where it fails.

ghost use Rattle.std.specs.Prelude.{◌≡◌, ◌≢◌, ◌⊎◌, ◌↔◌, ℕ, List, Bool, true, false, Option, Some, None, Err, IfOk, IfSome, OnOk, OnErr, option_map};
ghost use Rattle.tenant_core.specs.Cached.{IsCachedFor};
ghost use Rattle.tenant_state.specs.Receipts.{receipt_of};
ghost use Rattle.tenant_state.specs.State.{CanMake, TenantState, fresh, after};
ghost use Rattle.tenant_state.specs.Valid.{IsState};
ghost use Rattle.tenant_core.specs.States.{Found, HasInventory, IsDamaged, LeavesAsItWas, LeavesAsItWasOr, Same, Shows};
ghost use Rattle.tenant_core.specs.StoreReply as spec;
ghost use Rattle.tenant_core.specs.StoreReply.{is_failed};

use crate::cached::CachedAnswer;
use crate::queries::Query;
use std::alloc::{AllocError, Global};
use std::rc::Rc;
use tenant_messages::{Reply, StoreFault, error, no_memory, written};
use tenant_state::{Change, Inventory, Receipt};

/// A store of tenants' states by name. It holds the allocator that its constructor was given.
///
/// Five ghosts give a store its meaning. `is_honest`: what it reads is what it wrote. `has_state`:
/// the state of a name. `latched`: a call failed for good; the states then say nothing any more,
/// and no call but `is_latched` may follow. `may_leave`: what an opening may find of a name after a
/// crash now. `keeps`: a call changed nothing, not even data that isn't a state.
///
/// In an honest store that isn't latched each name has one state (`IsState`), is absent, or has
/// damaged data. Clauses on states have the premise that the store is honest after the call; it
/// then was honest before. A call that fails changes nothing, and no call changes another name,
/// unless it latches the store. It does so exactly where it answers `Failed`.
pub trait TenantStore {
    /// What is read is what was written.
    ghost is_honest: { Self → Type 0 };

    /// The name has this state, or is absent (`None`). Neither holds of a name whose data is
    /// damaged.
    ghost has_state: { Self → List ℕ → Option TenantState → Type 0 };

    /// A call failed for good.
    ghost latched: { Self → Bool };

    /// After a crash now, an opening may find this of the name.
    ghost may_leave: { Self → List ℕ → Found → Type 0 };

    /// The second store holds the same data as the first, to the byte.
    ghost keeps: { Self → Self → Type 0 };

    /// Returns whether a call failed for good.
    fn is_latched(&self) -> bool
        ensures { result ≡ latched self.now };

    /// Loads what a tenant has, shared and not copied, or returns `None` where it is absent.
    fn load(&mut self, name: &str) -> Result<Option<Rc<Inventory>>, StoreFault>
        requires open { latched self.old ≡ false }
        ensures found { is_honest self.new → IfOk result (λ found. HasInventory (has_state self.old) name.now (option_map (λ r. r.value) found)) }
        ensures damaged { is_honest self.new → result ≡ Err StoreFault.Damaged → IsDamaged (has_state self.old) name.now }
        ensures same { is_honest self.new → latched self.new ≡ false → keeps self.old self.new }
        ensures latch { latched self.new ≡ is_failed result }
        ensures crash { is_honest self.new → latched self.new ≡ true → LeavesAsItWas (has_state self.old) (may_leave self.new) }
        ensures honest { is_honest self.new → is_honest self.old };

    /// Finds the receipt of a request number of a tenant, which exists, and shares it, or returns
    /// `None`.
    fn find_receipt(&mut self, name: &str, number: &str) -> Result<Option<Rc<Receipt>>, StoreFault>
        requires open { latched self.old ≡ false }
        requires there { is_honest self.old → (s : TenantState) × has_state self.old name.now (Some s) }
        ensures found { is_honest self.new → (s : TenantState) → has_state self.old name.now (Some s) → IfOk result (λ found. option_map (λ r. r.value) found ≡ receipt_of number.now s.receipts) }
        ensures damaged { is_honest self.new → result ≢ Err StoreFault.Damaged }
        ensures same { is_honest self.new → latched self.new ≡ false → keeps self.old self.new }
        ensures latch { latched self.new ≡ is_failed result }
        ensures crash { is_honest self.new → latched self.new ≡ true → LeavesAsItWas (has_state self.old) (may_leave self.new) }
        ensures honest { is_honest self.new → is_honest self.old };

    /// Returns what a tenant has, with what a query asks for, where the store has both in its
    /// cache; `None` says nothing. It changes nothing that contracts see.
    fn cached<'q>(
        &mut self,
        name: &str,
        query: &'q Query,
    ) -> Option<(Rc<Inventory>, CachedAnswer<'q>)>
        ensures fits { IfSome result (λ r. IsCachedFor query.now r.0.value r.1) }
        ensures found { is_honest self.new → latched self.new ≡ false → IfSome result (λ r. HasInventory (has_state self.new) name.now (Some r.0.value)) }
        ensures same { self.new ≡ self.old }
    {
        None
    }

    /// Creates a tenant, which is absent.
    fn create(&mut self, name: &str) -> Result<(), StoreFault>
        requires open { latched self.old ≡ false }
        requires absent { is_honest self.old → has_state self.old name.now None }
        ensures made { is_honest self.new → OnOk result (has_state self.new name.now (Some fresh)) }
        ensures others { is_honest self.new → latched self.new ≡ false → (t : List ℕ) (s : Option TenantState) → t ≢ name.now → (has_state self.old t s ↔ has_state self.new t s) }
        ensures err { is_honest self.new → latched self.new ≡ false → OnErr result (keeps self.old self.new) }
        ensures damaged { is_honest self.new → result ≢ Err StoreFault.Damaged }
        ensures latch { latched self.new ≡ is_failed result }
        ensures crash { is_honest self.new → latched self.new ≡ true → LeavesAsItWasOr name.now (Some fresh) (has_state self.old) (may_leave self.new) }
        ensures honest { is_honest self.new → is_honest self.old };

    /// Makes an accepted change of a tenant, which exists and whose state can make it.
    fn commit(&mut self, name: &str, change: &Change) -> Result<(), StoreFault>
        requires open { latched self.old ≡ false }
        requires there { is_honest self.old → (s : TenantState) × has_state self.old name.now (Some s) × CanMake change.now s }
        ensures made { is_honest self.new → (s : TenantState) → has_state self.old name.now (Some s) → OnOk result (has_state self.new name.now (Some (after change.now s))) }
        ensures others { is_honest self.new → latched self.new ≡ false → (t : List ℕ) (s : Option TenantState) → t ≢ name.now → (has_state self.old t s ↔ has_state self.new t s) }
        ensures err { is_honest self.new → latched self.new ≡ false → OnErr result (keeps self.old self.new) }
        ensures damaged { is_honest self.new → result ≢ Err StoreFault.Damaged }
        ensures latch { latched self.new ≡ is_failed result }
        ensures crash { is_honest self.new → latched self.new ≡ true → (s : TenantState) → has_state self.old name.now (Some s)
            → LeavesAsItWasOr name.now (Some (after change.now s)) (has_state self.old) (may_leave self.new) }
        ensures honest { is_honest self.new → is_honest self.old };

    /// Removes a tenant, which exists, with everything of it.
    fn remove(&mut self, name: &str) -> Result<(), StoreFault>
        requires open { latched self.old ≡ false }
        requires there { is_honest self.old → (s : TenantState) × has_state self.old name.now (Some s) }
        ensures made { is_honest self.new → OnOk result (has_state self.new name.now None) }
        ensures others { is_honest self.new → latched self.new ≡ false → (t : List ℕ) (s : Option TenantState) → t ≢ name.now → (has_state self.old t s ↔ has_state self.new t s) }
        ensures err { is_honest self.new → latched self.new ≡ false → OnErr result (keeps self.old self.new) }
        ensures damaged { is_honest self.new → result ≢ Err StoreFault.Damaged }
        ensures latch { latched self.new ≡ is_failed result }
        ensures crash { is_honest self.new → latched self.new ≡ true → LeavesAsItWasOr name.now None (has_state self.old) (may_leave self.new) }
        ensures honest { is_honest self.new → is_honest self.old };

    /// A law: an honest store that isn't latched gives a name one state at most.
    ghost one_state: { (store : Self) (t : List ℕ) (s u : Option TenantState) → is_honest store → latched store ≡ false → has_state store t s → has_state store t u → s ≡ u };

    /// A law: each state of a name is within the limits of a state, with its orders and ranges.
    ghost are_states: { (store : Self) (t : List ℕ) (s : TenantState) → is_honest store → latched store ≡ false → has_state store t (Some s) → IsState s };

    /// Laws: `keeps` is reflexive and transitive.
    ghost keeps_itself: { (store : Self) → keeps store store };

    ghost keeps_both: { (old mid new : Self) → keeps old mid → keeps mid new → keeps old new };

    /// A law: the same data gives each name the same state.
    ghost keeps_states: { (old new : Self) → is_honest new → latched old ≡ false → latched new ≡ false → keeps old new → Same (has_state old) (has_state new) };

    /// A law: while no call has failed for good, a crash leaves what the store shows.
    ghost settled: { (store : Self) (t : List ℕ) (found : Found) → is_honest store → latched store ≡ false → may_leave store t found → Shows (has_state store) t found };
}

/// Makes the reply where a call of the store failed. `Err(AllocError)`: an allocation failed;
/// nothing is changed.
fn reply_to(alloc: Global, fault: StoreFault) -> Result<Reply, AllocError>
    ensures { IfOk result (λ r. r ≡ spec.store_fault fault) }
{
    match fault {
        StoreFault::NoMemory => Ok(no_memory(alloc)),
        StoreFault::Damaged => store_damaged(alloc),
        StoreFault::Full | StoreFault::Failed => store_failed(alloc),
    }
}

#[tactic(auto, unfolding(crate::specs::StoreReply::store_damaged))]
fn store_damaged(alloc: Global) -> Result<Reply, AllocError>
    ensures { IfOk result (λ r. r ≡ spec.store_damaged) }
{
    written(alloc, 500, &error(alloc, "store_damaged")?)
}

#[tactic(auto, unfolding(crate::specs::StoreReply::store_failed))]
fn store_failed(alloc: Global) -> Result<Reply, AllocError>
    ensures { IfOk result (λ r. r ≡ spec.store_failed) }
{
    written(alloc, 503, &error(alloc, "store_failed")?)
}

/// Makes the reply where a call of the store failed: 500 `store_damaged`, 503 `store_failed`, or
/// the 503 where an allocation failed, which may also come in place of the others. Never fails.
pub fn store_fault(alloc: Global, fault: StoreFault) -> Reply
    ensures { (result ≡ spec.store_fault fault) ⊎ (result ≡ spec.no_memory) }
{
    match reply_to(alloc, fault) {
        Ok(reply) => reply,
        Err(_) => no_memory(alloc),
    }
}

//! The service of all tenants, over any store.

ghost use Rattle.std.specs.Prelude.{◌≡◌, ◌≢◌, ◌↔◌, ℕ, List, true, false, Option, is_some, option_map, Err, IfOk, IfSome, OnOk, OnErr};
ghost use Rattle.tenant_core.specs.tenant_messages.specs.CallParts.{call_of};
ghost use Rattle.tenant_core.specs.Private.Performing.{Decides, LeavesRequest, Performs};
ghost use Rattle.tenant_core.specs.States.{IsDamaged, LeavesAsItWas, LeavesAsItWasOr, LeavesStep, Follows};
ghost use Rattle.tenant_core.specs.Step.{is_of, receipt_in};
ghost use Rattle.tenant_core.specs.Effects.{Fits, after_effect};
ghost use Rattle.tenant_core.specs.StoreReply.{is_failed, store_damaged};
ghost use Rattle.tenant_core.specs.tenant_state.specs.State.{TenantState};

use std::alloc::{AllocError, Global};
use std::marker::Model;
use std::rc::Rc;
use tenant_core::laws::each_decision_fits_its_state;
use tenant_core::{
    Action, Call, CallParts, Decision, Effect, Receipt, Refusal, Reply, Request, Routes,
    StoreFault, TenantStore, answer_cached, decide, read_request, refused, store_fault,
};

/// Carries out the effect of a request on its tenant. `Err`: the store's fault, with nothing
/// changed, unless it latched the store.
fn carry_out_effect<T: TenantStore>(
    store: &mut T,
    tenant: &str,
    effect: &Effect,
) -> Result<(), StoreFault>
    requires open { T.latched store.old ≡ false }
    requires fits { T.is_honest store.old → (s : Option TenantState) × T.has_state store.old tenant.now s × Fits effect.now s }
    ensures left { T.is_honest store.new → (s : Option TenantState) → T.has_state store.old tenant.now s → Fits effect.now s → OnOk result (T.has_state store.new tenant.now (after_effect effect.now s)) }
    ensures others { T.is_honest store.new → T.latched store.new ≡ false → (t : List ℕ) (s : Option TenantState) → t ≢ tenant.now → (T.has_state store.old t s ↔ T.has_state store.new t s) }
    ensures err { T.is_honest store.new → T.latched store.new ≡ false → OnErr result (T.keeps store.old store.new) }
    ensures damaged { T.is_honest store.new → result ≢ Err StoreFault.Damaged }
    ensures latch { T.latched store.new ≡ is_failed result }
    ensures crash { T.is_honest store.new → T.latched store.new ≡ true → (s : Option TenantState) → T.has_state store.old tenant.now s → Fits effect.now s
        → LeavesAsItWasOr tenant.now (after_effect effect.now s) (T.has_state store.old) (T.may_leave store.new) }
    ensures honest { T.is_honest store.new → T.is_honest store.old }
{
    match effect {
        Effect::Keep => Ok(()),
        Effect::Create => store.create(tenant),
        Effect::Change(change) => store.commit(tenant, change),
        Effect::Remove => store.remove(tenant),
    }
}

/// Finds the receipt of an action's request number, if the action has one and the tenant is there.
fn receipt_of<T: TenantStore>(
    store: &mut T,
    tenant: &str,
    is_there: bool,
    action: &Action<'_>,
) -> Result<Option<Rc<Receipt>>, StoreFault>
    requires open { T.latched store.old ≡ false }
    requires there { T.is_honest store.old → (s : Option TenantState) × T.has_state store.old tenant.now s × (is_there ≡ is_some s) }
    ensures found { T.is_honest store.new → (s : Option TenantState) → T.has_state store.old tenant.now s → is_there ≡ is_some s → IfOk result (λ found. option_map (λ r. r.value) found ≡ receipt_in action.now s) }
    ensures damaged { T.is_honest store.new → result ≢ Err StoreFault.Damaged }
    ensures same { T.is_honest store.new → T.latched store.new ≡ false → T.keeps store.old store.new }
    ensures latch { T.latched store.new ≡ is_failed result }
    ensures crash { T.is_honest store.new → T.latched store.new ≡ true → LeavesAsItWas (T.has_state store.old) (T.may_leave store.new) }
    ensures honest { T.is_honest store.new → T.is_honest store.old }
{
    match action {
        Action::Command(command) if is_there => {
            store.find_receipt(tenant, command.number.as_str())
        }
        _ => Ok(None),
    }
}

/// Decides what a query does, which is nothing, from what the store has in its cache for it.
/// `None`: the cache lacks it, or the request isn't a query. `Err(AllocError)`: an allocation
/// failed. Nothing is changed.
fn decide_cached<T: TenantStore>(
    alloc: Global,
    store: &mut T,
    request: &Request<'_>,
) -> Result<Option<Decision>, AllocError>
    requires open { T.latched store.old ≡ false }
    ensures decided { T.is_honest store.new → IfOk result (λ found. IfSome found (Decides request.now (T.has_state store.old))) }
    ensures same { store.new ≡ store.old }
{
    let Action::Query(query) = &request.action else {
        return Ok(None);
    };
    let Some((inventory, cached)) = store.cached(request.tenant, query) else {
        return Ok(None);
    };
    let reply = answer_cached(alloc, &inventory, &cached)?;
    Ok(Some(Decision {
        effect: Effect::Keep,
        reply,
    }))
}

/// Loads what the tenant has, and the receipt of the request number, and decides what the request
/// does. `Err`: the store's fault; a failed allocation is one. Nothing is changed.
fn decide_loaded<T: TenantStore>(
    alloc: Global,
    store: &mut T,
    request: &Request<'_>,
) -> Result<Decision, StoreFault>
    requires open { T.latched store.old ≡ false }
    ensures decided { T.is_honest store.new → IfOk result (Decides request.now (T.has_state store.old)) }
    ensures damaged { T.is_honest store.new → result ≡ Err StoreFault.Damaged → IsDamaged (T.has_state store.old) request.now.tenant }
    ensures same { T.is_honest store.new → T.latched store.new ≡ false → T.keeps store.old store.new }
    ensures latch { T.latched store.new ≡ is_failed result }
    ensures crash { T.is_honest store.new → T.latched store.new ≡ true → LeavesAsItWas (T.has_state store.old) (T.may_leave store.new) }
    ensures honest { T.is_honest store.new → T.is_honest store.old }
{
    let tenant = request.tenant;
    let inventory = store.load(tenant)?;
    let receipt = receipt_of(store, tenant, inventory.is_some(), &request.action)?;
    Ok(decide(
        alloc,
        tenant,
        inventory.as_deref(),
        receipt.as_deref(),
        &request.action,
    )?)
}

/// Decides what a request does, from what the store has in its cache, or from what it loads. `Err`:
/// the store's fault; a failed allocation is one. Nothing is changed.
fn decide_request<T: TenantStore>(
    alloc: Global,
    store: &mut T,
    request: &Request<'_>,
) -> Result<Decision, StoreFault>
    requires open { T.latched store.old ≡ false }
    ensures decided { T.is_honest store.new → IfOk result (Decides request.now (T.has_state store.old)) }
    ensures damaged { T.is_honest store.new → result ≡ Err StoreFault.Damaged → IsDamaged (T.has_state store.old) request.now.tenant }
    ensures same { T.is_honest store.new → T.latched store.new ≡ false → T.keeps store.old store.new }
    ensures latch { T.latched store.new ≡ is_failed result }
    ensures crash { T.is_honest store.new → T.latched store.new ≡ true → LeavesAsItWas (T.has_state store.old) (T.may_leave store.new) }
    ensures honest { T.is_honest store.new → T.is_honest store.old }
{
    if let Some(decision) = decide_cached(alloc, store, request)? {
        return Ok(decision);
    }
    decide_loaded(alloc, store, request)
}

/// Decides what a request does, carries it out, and returns the reply. `Err`: the store's fault,
/// with nothing changed, unless it latched the store; a failed allocation is one.
fn perform<T: TenantStore>(
    alloc: Global,
    store: &mut T,
    request: &Request<'_>,
) -> Result<Reply, StoreFault>
    requires open { T.latched store.old ≡ false }
    ensures ok { T.is_honest store.new → IfOk result (Performs request.now (T.has_state store.old) (T.has_state store.new)) }
    ensures err { T.is_honest store.new → T.latched store.new ≡ false → OnErr result (T.keeps store.old store.new) }
    ensures damaged { T.is_honest store.new → result ≡ Err StoreFault.Damaged → IsDamaged (T.has_state store.old) request.now.tenant }
    ensures latch { T.latched store.new ≡ is_failed result }
    ensures crash { T.is_honest store.new → T.latched store.new ≡ true → LeavesRequest request.now (T.has_state store.old) (T.may_leave store.new) }
    ensures honest { T.is_honest store.new → T.is_honest store.old }
{
    each_decision_fits_its_state();
    let decision = decide_request(alloc, store, request)?;
    carry_out_effect(store, request.tenant, &decision.effect)?;
    Ok(decision.reply)
}

/// Serves a call and returns its reply. `Err`: the store's fault, with nothing changed, unless it
/// latched the store; a failed allocation is one.
fn reply_or_fault<T: TenantStore>(
    alloc: Global,
    routes: &Routes,
    store: &mut T,
    call: CallParts<'_>,
) -> Result<Reply, StoreFault>
    requires open { T.latched store.old ≡ false }
    ensures ok { T.is_honest store.new → IfOk result (Follows (call_of call.entry) (T.has_state store.old) (T.has_state store.new)) }
    ensures err { T.is_honest store.new → T.latched store.new ≡ false → OnErr result (T.keeps store.old store.new) }
    ensures damaged { T.is_honest store.new → result ≡ Err StoreFault.Damaged → Follows (call_of call.entry) (T.has_state store.old) (T.has_state store.new) store_damaged }
    ensures rows { T.is_honest store.new → T.latched store.new ≡ false → (t : List ℕ) → is_of t (call_of call.entry) ≡ true → IsDamaged (T.has_state store.old) t → T.keeps store.old store.new }
    ensures latch { T.latched store.new ≡ is_failed result }
    ensures crash { T.is_honest store.new → T.latched store.new ≡ true → LeavesStep (call_of call.entry) (T.has_state store.old) (T.may_leave store.new) }
    ensures honest { T.is_honest store.new → T.is_honest store.old }
{
    match read_request(alloc, routes, call) {
        Ok(request) => perform(alloc, store, &request),
        Err(Refusal::Problem(problem)) => Ok(refused(alloc, problem)?),
        Err(Refusal::NoMemory) => Err(StoreFault::NoMemory),
    }
}

/// The service of all tenants over a store. Contracts see it as its store.
#[derive(Drop)]
pub struct Service<T: TenantStore> {
    pub(crate) alloc: Global,
    routes: Routes,
    store: T,
    /// Whether a call of the store failed for good.
    is_latched: bool,
}

impl<T: TenantStore> Model for Service<T> {
    ghost Value = { T };

    ghost coded = { T.code };

    ghost view = { λ a. a.store };

    ghost invariant = { λ a. a.is_latched ≡ T.latched a.store };
}

impl<T: TenantStore + Drop> Service<T> {
    ghost use Rattle.std.specs.Prelude.{◌≡◌, IfOk};

    /// Makes a service over `store`. `Err(AllocError)`: an allocation failed; the store is dropped.
    pub fn over(alloc: Global, store: T) -> Result<Self, AllocError>
        ensures { IfOk result (λ service. service ≡ store) }
    {
        let routes = Routes::build(alloc)?;
        Ok(Service::with_routes(alloc, routes, store))
    }
}

impl<T: TenantStore> Service<T> {
    ghost use Rattle.std.specs.Prelude.{◌≡◌, ◌≤◌, ℕ, List, [], true, false, IfOk, OnErr, length, vec_capacity};
    ghost use Rattle.std.specs.List.{All};
    ghost use Rattle.tenant_core.specs.tenant_messages.specs.CallParts.{call_of};
    ghost use Rattle.tenant_core.specs.States.{IsDamaged, LeavesStep, Serves, MeetsDefinition, Headline, Leaves, ServesCallsOfNobody, ServesCallsOfDamaged, StaysDamaged, NamesCause};
    ghost use Rattle.tenant_core.specs.Step.{is_of};
    ghost use Rattle.tenant_core.specs.StoreReply.{IsUnavailable};

    /// Makes a service over `store`, with routes that were built before. Allocates nothing.
    pub fn with_routes(alloc: Global, routes: Routes, store: T) -> Self
        ensures { result ≡ store }
    {
        let is_latched = store.is_latched();
        Service {
            alloc,
            routes,
            store,
            is_latched,
        }
    }

    /// Gives the store back. Allocates nothing.
    pub fn into_store(self) -> T
        ensures { result ≡ self }
    {
        let Service { store, .. } = self;
        store
    }

    /// Returns whether a call of the store failed for good. The service then answers 503 to every
    /// call.
    pub fn is_latched(&self) -> bool
        ensures { result ≡ T.latched self.now }
    {
        self.is_latched
    }

    /// Serves a call and returns its reply. The reply is the definition's for the state of the
    /// call's tenant, which then has the definition's new state, and the state of every other
    /// tenant is unchanged; or the reply is 503, and the state of every tenant is unchanged. A call
    /// that latches the store is answered 503; after a crash an opening may then find it done or
    /// not. A latched store is called no more.
    pub fn request(&mut self, call: CallParts<'_>) -> Reply
        ensures serves { T.is_honest self.new → T.latched self.new ≡ false → Serves (call_of call.entry) (T.has_state self.old) (T.has_state self.new) result }
        ensures rows { T.is_honest self.new → T.latched self.new ≡ false → (t : List ℕ) → is_of t (call_of call.entry) ≡ true → IsDamaged (T.has_state self.old) t → T.keeps self.old self.new }
        ensures crash { T.is_honest self.new → T.latched self.old ≡ false → T.latched self.new ≡ true → LeavesStep (call_of call.entry) (T.has_state self.old) (T.may_leave self.new) }
        ensures rests { T.latched self.old ≡ true → self.new ≡ self.old }
        ensures silent { T.latched self.new ≡ true → IsUnavailable result }
        ensures honest { T.is_honest self.new → T.is_honest self.old }
    {
        if self.is_latched {
            return store_fault(self.alloc, StoreFault::Failed);
        }
        match reply_or_fault(self.alloc, &self.routes, &mut self.store, call) {
            Ok(reply) => reply,
            Err(fault) => {
                self.is_latched = fault == StoreFault::Failed;
                store_fault(self.alloc, fault)
            }
        }
    }

    /// Serves the calls in order and appends their replies. `replies` has the capacity for them.
    fn serve_all(&mut self, calls: &[Call], replies: &mut Vec<Reply>)
        requires empty { replies.old.items ≡ [] }
        requires room { length calls.now ≤ vec_capacity replies.old }
        ensures count { length replies.new.items ≡ length calls.now }
        ensures meets { T.is_honest self.new → MeetsDefinition (T.latched self.new) (T.has_state self.old) (T.has_state self.new) calls.now replies.new.items }
        ensures honest { T.is_honest self.new → T.is_honest self.old }
    {
        for call in calls {
            let reply = self.request(call.parts());
            if replies.push(reply).is_err() {
                unreachable!();
            }
        }
    }

    /// Serves the calls in order and returns their replies. `Err(AllocError)`: an allocation, that
    /// of the list of replies, failed; nothing is changed, and no call was served.
    ///
    /// The headline: for every list of calls and every tenant, the replies to that tenant other
    /// than 503 are those of the definition, run over just the calls that have such a reply, from
    /// the state that the tenant had (`None`: it was absent).
    pub fn run(&mut self, calls: &[Call]) -> Result<Vec<Reply>, AllocError>
        ensures count { IfOk result (λ replies. length replies.items ≡ length calls.now) }
        ensures headline { T.is_honest self.new → IfOk result (λ replies. Headline (T.has_state self.old) calls.now replies.items) }
        ensures leaves { T.is_honest self.new → T.latched self.new ≡ false → IfOk result (λ replies. Leaves (T.has_state self.old) (T.has_state self.new) calls.now replies.items) }
        ensures nobody { T.is_honest self.new → IfOk result (λ replies. ServesCallsOfNobody calls.now replies.items) }
        ensures damaged { T.is_honest self.new → IfOk result (λ replies. ServesCallsOfDamaged (T.has_state self.old) calls.now replies.items) }
        ensures stays { T.is_honest self.new → T.latched self.new ≡ false → StaysDamaged (T.has_state self.old) (T.has_state self.new) }
        ensures causes { T.is_honest self.new → IfOk result (λ replies. All NamesCause replies.items) }
        ensures err { OnErr result (self.new ≡ self.old) }
        ensures honest { T.is_honest self.new → T.is_honest self.old }
    {
        let mut replies = Vec::with_capacity(self.alloc, calls.len())?;
        self.serve_all(calls, &mut replies);
        Ok(replies)
    }
}

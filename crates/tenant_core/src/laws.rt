//! Laws of the definitions: each contract is about the definitions alone.

ghost use Rattle.std.specs.Prelude.{◌≡◌, ◌≢◌, ◌<◌, ℕ, suc, true, is_ok, List, Option, Some, None};
ghost use Rattle.std.specs.Str.{is_utf8};
ghost use Rattle.tenant_core.specs.Commands.{decision, Command};
ghost use Rattle.tenant_resources.specs.Groups.{placed};
ghost use Rattle.tenant_state.specs.Receipts.{receipt_of};
ghost use Rattle.tenant_messages.specs.Reply.{reply};
ghost use Rattle.tenant_core.specs.Step.{step, tenant_of, decision_on};
ghost use Rattle.tenant_messages.specs.declared.call.Call.{Call};
ghost use Rattle.tenant_state.specs.declared.receipts.Receipt.{Receipt};
ghost use Rattle.tenant_core.specs.declared.request.Action.{Action};
ghost use Rattle.tenant_core.specs.declared.decision.Effect.{Effect};
ghost use Rattle.tenant_core.specs.Effects.{Fits};
ghost use Rattle.tenant_core.specs.Request.{IsAction};
ghost use Rattle.tenant_state.specs.State.{Inventory, TenantPool, TenantState, Change, epoch, fresh, after, have_rules, inventory_of, pool};
ghost use Rattle.tenant_state.specs.Valid.{IsState};

use crush_text::texts_are_read_as_they_say;

/// No step has the status 500 or 503: these are for a store or an allocation that fails.
pub fn no_step_answers_500_or_503()
    ensures no_500 { (call : Call) (s : Option TenantState) → (step call s).reply.status ≢ 500 }
    ensures no_503 { (call : Call) (s : Option TenantState) → (step call s).reply.status ≢ 503 }
{}

/// A call of no tenant has one reply on every state, and leaves the state unchanged.
pub fn a_call_of_no_tenant_stands_alone()
    ensures reply { (call : Call) (s : Option TenantState) → tenant_of call ≡ None → (step call s).reply ≡ (step call None).reply }
    ensures state { (call : Call) (s : Option TenantState) → tenant_of call ≡ None → (step call s).state ≡ s }
{}

/// Where the decision on an action is a change, the epoch after it is one more.
pub fn each_change_raises_the_epoch_by_one()
    ensures { (tenant : List ℕ) (action : Action) (s : TenantState) (c : Change) → (decision_on tenant action (Some s)).effect ≡ Effect.Change c → epoch (after c s) ≡ suc (epoch s) }
{}

/// A changing request acts once. Accepted, it leaves a receipt, which no later change takes away;
/// asked again of a state that has this receipt, it changes nothing and has the same reply, to the
/// byte.
pub fn a_changing_request_acts_once()
    ensures receipt { (k : Command) (s : TenantState) (c : Change) → (decision k s).effect ≡ Effect.Change c → receipt_of k.number (after c s).receipts ≡ Some c.receipt }
    ensures stays { (number : List ℕ) (k : Command) (s : TenantState) (c : Change) (r : Receipt) → (decision k s).effect ≡ Effect.Change c
        → receipt_of number s.receipts ≡ Some r → receipt_of number (after c s).receipts ≡ Some r }
    ensures effect { (k : Command) (s u : TenantState) (c : Change) → (decision k s).effect ≡ Effect.Change c → receipt_of k.number u.receipts ≡ Some c.receipt
        → (decision k u).effect ≡ Effect.Keep }
    ensures reply { (k : Command) (s u : TenantState) (c : Change) → (decision k s).effect ≡ Effect.Change c → receipt_of k.number u.receipts ≡ Some c.receipt
        → reply (decision k u).answer ≡ reply (decision k s).answer }
{}

/// Only an absent tenant is created, and only one that exists is removed or changed, by a change
/// that its state can make: whose request number is new, for which there is room, and whose
/// version, pool or exceptions go with what the tenant has.
pub fn each_decision_fits_its_state()
    ensures { (tenant : List ℕ) (action : Action) (s : Option TenantState) → Fits (decision_on tenant action s).effect s }
{}

/// Where the decision on an action as it is read is a change of a state, it leaves a state: one
/// within the limits, orders and ranges of a state. Premise: the reply in the receipt is UTF-8, as
/// the text of each `Receipt` is.
pub fn each_change_leaves_a_state()
    ensures { (tenant : List ℕ) (action : Action) (s : TenantState) (c : Change) → IsAction action → IsState s → (decision_on tenant action (Some s)).effect ≡ Effect.Change c
        → is_utf8 c.receipt.reply ≡ true → IsState (after c s) }
{
    texts_are_read_as_they_say();
}

/// The newest version has the rule of each pool: this holds for a new tenant, and each change
/// leaves it so. Hence each group of a pool is placed.
pub fn pools_have_their_rules()
    ensures fresh { have_rules (inventory_of fresh) ≡ true }
    ensures stays { (tenant : List ℕ) (action : Action) (s : TenantState) (c : Change) → (decision_on tenant action (Some s)).effect ≡ Effect.Change c
        → have_rules (inventory_of s) ≡ true → have_rules (inventory_of (after c s)) ≡ true }
    ensures placed { (i : Inventory) (id group : ℕ) (p : TenantPool) → have_rules i ≡ true → pool id i ≡ Some p → group < p.parts.pg_num → is_ok (placed i p group) ≡ true }
{}

//! Laws of sessions and histories: each contract is about the definitions alone.

ghost use Rattle.std.specs.Prelude.{◌≡◌, ◌↔◌, ◌⊎◌, ◌≤◌, ◌<◌, ◌++◌, ℕ, List, [], ◌∷◌, length, slice_get, suc, true, false, Ok, Option, Some, None, Contains};
ghost use Rattle.std.specs.List.{All};
ghost use Rattle.crush_map.specs.Sound.{IsEachOnce};
ghost use Rattle.tenant_core.specs.Request.{request_of};
ghost use Rattle.tenant_core.specs.Step.{is_of, step};
ghost use Rattle.tenant_core.specs.declared.request.Action.{Action};
ghost use Rattle.crush_server.specs.tenant_service.specs.History.{Explains, IsHistoryFor, IsKeptOf, IsSoundFor, Kept, MayLeave, Session, calls_of, joined, kept_acknowledged};
ghost use Rattle.tenant_core.specs.tenant_messages.specs.declared.call.Call.{Call};
ghost use Rattle.tenant_core.specs.tenant_messages.specs.declared.reply.Reply.{Reply};
ghost use Rattle.tenant_core.specs.tenant_state.specs.Receipts.{receipt_of};
ghost use Rattle.tenant_core.specs.tenant_state.specs.State.{TenantState, fresh};
ghost use Rattle.crush_laws.specs.Sessions.{HasNoDoubtOf, IsAcknowledged, IsInDoubt, IsOfSession, after_acknowledged, before_place};

/// Only its creation makes an absent tenant, which then has nothing: no receipt of a dropped tenant
/// of the same name, so each request number is new.
pub fn a_tenant_made_again_begins_anew()
    ensures made { (call : Call) (state : TenantState) → (step call None).state ≡ Some state → state ≡ fresh }
    ensures by { (call : Call) (state : TenantState) → (step call None).state ≡ Some state → (tenant : List ℕ) × (request_of call ≡ Ok (record { tenant = tenant; action = Action.CreateTenant })) }
    ensures numbers { (number : List ℕ) → receipt_of number fresh.receipts ≡ None }
{}

/// In a sound session the reply to each acknowledged call is the step's, on the state that the
/// tenant's acknowledged calls before it leave.
pub fn each_acknowledgement_is_that_of_a_step()
    ensures { (t : List ℕ) (session : Session) (place : ℕ) (call : Call) (reply : Reply) → IsSoundFor t session → IsAcknowledged t session place call reply
        → reply ≡ (step call (before_place t session place)).reply }
{}

/// The doubt of a sound session is the place of a call, and from there on each reply is 503.
pub fn from_its_doubt_on_a_session_is_silent()
    ensures within { (t : List ℕ) (session : Session) (doubt : ℕ) → IsSoundFor t session → session.doubt ≡ Some doubt → doubt < length session.calls }
    ensures silent { (t : List ℕ) (session : Session) (doubt place : ℕ) (reply : Reply) → IsSoundFor t session → session.doubt ≡ Some doubt
        → doubt ≤ place → slice_get session.replies place ≡ Some reply → reply.status ≡ 503 }
{}

/// Of a tenant a session may leave the state after its acknowledged calls, or, where a call of the
/// tenant is in doubt, the state after one more step. A call in doubt of another tenant changes
/// nothing of the tenant, and neither does a session that has no call of it.
pub fn a_session_leaves_what_was_acknowledged()
    ensures none { (t : List ℕ) (session : Session) (state : Option TenantState) → HasNoDoubtOf t session → MayLeave t session state ↔ (state ≡ after_acknowledged t session) }
    ensures own { (t : List ℕ) (session : Session) (place : ℕ) (call : Call) (state : Option TenantState) → IsInDoubt session place call → is_of t call ≡ true
        → MayLeave t session state ↔ ((state ≡ after_acknowledged t session) ⊎ (state ≡ (step call (after_acknowledged t session)).state)) }
    ensures uncalled { (t : List ℕ) (session : Session) (state : Option TenantState) → All (λ call. is_of t call ≡ false) session.calls → MayLeave t session state → state ≡ session.found t }
{}

/// The list that is kept of a session has each acknowledged call of the tenant, with its reply, and
/// no other call, but that its call in doubt may be kept behind them or not.
pub fn each_acknowledged_call_is_kept()
    ensures acknowledged { (t : List ℕ) (session : Session) (part : List Kept) (place : ℕ) (call : Call) (reply : Reply) → IsKeptOf t session part → IsAcknowledged t session place call reply
        → Contains part (record { call = call; reply = Some reply }) }
    ensures no_other { (t : List ℕ) (session : Session) (part : List Kept) (kept : Kept) → IsKeptOf t session part → Contains part kept → IsOfSession t session kept }
    ensures none { (t : List ℕ) (session : Session) (part : List Kept) → HasNoDoubtOf t session → IsKeptOf t session part ↔ (part ≡ kept_acknowledged t session) }
    ensures own { (t : List ℕ) (session : Session) (part : List Kept) (place : ℕ) (call : Call) → IsInDoubt session place call → is_of t call ≡ true
        → IsKeptOf t session part ↔ ((part ≡ kept_acknowledged t session) ⊎ (part ≡ kept_acknowledged t session ++ record { call = call; reply = None } ∷ [])) }
{}

/// No call of a sound session is kept twice: where its calls differ, those that are kept differ.
pub fn no_call_is_kept_twice()
    ensures { (t : List ℕ) (session : Session) (part : List Kept) → IsSoundFor t session → IsKeptOf t session part → IsEachOnce session.calls → IsEachOnce (calls_of part) }
{}

/// An acknowledged call that isn't kept, or that a later opening doesn't find, is in no history:
/// each list that explains a history has each acknowledged call, and each opening finds the state
/// that the session before it leaves.
pub fn a_history_keeps_each_acknowledged_call()
    ensures kept { (t : List ℕ) (first : Session) (later : List Session) (parts : List (List Kept)) (k : ℕ) (session : Session) (place : ℕ) (call : Call) (reply : Reply) → Explains t first later parts
        → slice_get (first ∷ later) k ≡ Some session → IsAcknowledged t session place call reply → Contains (joined parts) (record { call = call; reply = Some reply }) }
    ensures found { (t : List ℕ) (first : Session) (later : List Session) (k : ℕ) (session next : Session) → IsHistoryFor t first later
        → slice_get (first ∷ later) k ≡ Some session → slice_get (first ∷ later) (suc k) ≡ Some next → HasNoDoubtOf t session → next.found t ≡ after_acknowledged t session }
{}

//! Laws of what a store may leave after a crash: each contract is about every store.

ghost use Rattle.std.specs.Prelude.{◌≡◌, ℕ, List, [], ◌∷◌, Option};
ghost use Rattle.tenant_core.specs.States.{Found, Damaged, HasState};
ghost use Rattle.crush_server.specs.tenant_service.specs.History.{IsHistoryFor};
ghost use Rattle.crush_server.specs.tenant_service.specs.Served.{IsSound, LeavesSession, session};
ghost use Rattle.tenant_core.specs.tenant_messages.specs.declared.call.Call.{Call};
ghost use Rattle.tenant_core.specs.tenant_messages.specs.declared.reply.Reply.{Reply};
ghost use Rattle.tenant_core.specs.tenant_state.specs.State.{TenantState};
ghost use Rattle.crush_laws.specs.Sessions.{HasNoDoubtOf, after_acknowledged};

use tenant_core::TenantStore;

/// After a crash an opening finds no damaged data of a tenant, and where no call of the tenant is
/// in doubt, it finds the state after the acknowledged calls.
pub fn a_crash_leaves_what_was_acknowledged<T: TenantStore>()
    ensures sound { (old left : T) (calls : List Call) (replies : List Reply) (doubt : Option ℕ) (found : List ℕ → Option TenantState) (t : List ℕ)
        → LeavesSession (T.has_state old) (T.may_leave left) calls replies doubt → T.has_state old t (found t) → ¬ (T.may_leave left t Damaged) }
    ensures none { (old left : T) (calls : List Call) (replies : List Reply) (doubt : Option ℕ) (found : List ℕ → Option TenantState) (t : List ℕ) (next : Found)
        → LeavesSession (T.has_state old) (T.may_leave left) calls replies doubt → T.has_state old t (found t) → T.may_leave left t next
        → HasNoDoubtOf t (session found calls replies doubt) → next ≡ HasState (after_acknowledged t (session found calls replies doubt)) }
{}

/// Two sessions, of which the second found of a tenant what a crash of the first may leave, are a
/// history.
pub fn sessions_one_after_the_other_are_a_history<T: TenantStore>()
    ensures { (old mid left : T) (calls later_calls : List Call) (replies later_replies : List Reply) (doubt later_doubt : Option ℕ) (found next : List ℕ → Option TenantState) (t : List ℕ)
        → IsSound (T.has_state old) calls replies doubt → LeavesSession (T.has_state old) (T.may_leave left) calls replies doubt
        → IsSound (T.has_state mid) later_calls later_replies later_doubt
        → T.has_state old t (found t) → T.has_state mid t (next t) → T.may_leave left t (HasState (next t))
        → IsHistoryFor t (session found calls replies doubt) (session next later_calls later_replies later_doubt ∷ []) }
{}

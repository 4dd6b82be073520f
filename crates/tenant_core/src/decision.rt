//! The decision what an action does to a tenant.

ghost use Rattle.std.specs.Prelude.{◌≡◌, Option, IfOk, option_map};
ghost use Rattle.tenant_state.specs.State.{TenantState, inventory_of};
ghost use Rattle.tenant_messages.specs.Reply.{reply};
ghost use Rattle.tenant_core.specs.Step.{decision_from, decision_on, receipt_in};

use crate::commands::apply_to;
use crate::queries::answer;
use crate::request::Action;
use crate::tenants;
use std::alloc::{AllocError, Global};
use tenant_messages::{Problem, Reply, refused};
use tenant_state::{Change, Inventory, Receipt};

/// What a request does to its tenant.
#[derive(Drop)]
pub enum Effect {
    /// The tenant's state is unchanged, or the tenant stays absent.
    Keep,
    /// The tenant, which is absent, is created.
    Create,
    /// The tenant's state is changed.
    Change(Change),
    /// The tenant is removed with everything of it.
    Remove,
}

/// The reply to a request, and its effect on the tenant.
#[derive(Drop)]
pub struct Decision {
    pub effect: Effect,
    pub reply: Reply,
}

/// Decides what an action does to a tenant, and the reply, from what the tenant has, or from its
/// absence (`None`), and from the receipt of the action's request number, if it has one. The
/// decision is the same for each state that has these. `Err(AllocError)`: an allocation failed;
/// nothing is changed.
pub fn decide(
    alloc: Global,
    tenant: &str,
    inventory: Option<&Inventory>,
    receipt: Option<&Receipt>,
    action: &Action<'_>,
) -> Result<Decision, AllocError>
    ensures effect { IfOk result (λ d. (s : Option TenantState) → option_map (λ i. i.now) inventory.entry ≡ option_map inventory_of s
        → option_map (λ r. r.now) receipt.entry ≡ receipt_in action.now s → d.effect ≡ (decision_on tenant.now action.now s).effect) }
    ensures reply { IfOk result (λ d. (s : Option TenantState) → option_map (λ i. i.now) inventory.entry ≡ option_map inventory_of s
        → option_map (λ r. r.now) receipt.entry ≡ receipt_in action.now s → d.reply ≡ reply (decision_on tenant.now action.now s).answer) }
{
    let (effect, reply) = decide_from(alloc, tenant, inventory, receipt, action)?;
    Ok(Decision { effect, reply })
}

/// Decides the same, by the definition that takes what the tenant has and the receipt: the table of
/// all actions. Returns the effect and the reply.
fn decide_from(
    alloc: Global,
    tenant: &str,
    inventory: Option<&Inventory>,
    receipt: Option<&Receipt>,
    action: &Action<'_>,
) -> Result<(Effect, Reply), AllocError>
    ensures effect { IfOk result (λ d. d.0 ≡ (decision_from tenant.now action.now (option_map (λ i. i.now) inventory.entry) (option_map (λ r. r.now) receipt.entry)).effect) }
    ensures reply { IfOk result (λ d. d.1 ≡ reply (decision_from tenant.now action.now (option_map (λ i. i.now) inventory.entry) (option_map (λ r. r.now) receipt.entry)).answer) }
{
    match (action, inventory) {
        (Action::CreateTenant, None) => Ok((Effect::Create, tenants::create(alloc, tenant)?)),
        (Action::CreateTenant, Some(_)) => Ok((Effect::Keep, refused(alloc, Problem::Exists)?)),
        (_, None) => Ok((Effect::Keep, refused(alloc, Problem::NoTenant)?)),
        (Action::ShowTenant, Some(inventory)) => {
            Ok((Effect::Keep, tenants::show(alloc, tenant, inventory)?))
        }
        (Action::DropTenant, Some(_)) => {
            Ok((Effect::Remove, tenants::drop_tenant(alloc, tenant)?))
        }
        (Action::Command(command), Some(inventory)) => {
            let (change, reply) = apply_to(alloc, inventory, receipt, command)?;
            match change {
                Some(change) => Ok((Effect::Change(change), reply)),
                None => Ok((Effect::Keep, reply)),
            }
        }
        (Action::Query(query), Some(inventory)) => {
            Ok((Effect::Keep, answer(alloc, inventory, query)?))
        }
    }
}

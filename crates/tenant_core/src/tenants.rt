//! Tenants, at `/t/{t}`: PUT creates one, GET shows what it has, DELETE drops it.

ghost use Rattle.std.specs.Prelude.{◌≡◌, IfOk};
ghost use Rattle.serde_json.specs.View.{view};
ghost use Rattle.tenant_core.specs.Tenants as spec;
ghost use Rattle.tenant_messages.specs.Reply.{created, reply, success};

use serde_json::{Value, json};
use std::alloc::{AllocError, Global};
use tenant_messages::{Reply, created, success};
use tenant_state::Inventory;

// ---- bodies of replies

/// Makes the body of the reply to a creation: the epoch 0 and the tenant's name.
fn creation_reply(alloc: Global, tenant: &str) -> Result<Value, AllocError>
    ensures { IfOk result (λ v. view v ≡ spec.creation_reply tenant.now) }
{
    json!(in alloc; {"epoch": 0u64, "tenant": tenant})
}

/// Makes the body that says what a tenant has: the numbers of states of devices, of pools and of
/// versions, and its epoch.
fn summary_reply(alloc: Global, tenant: &str, inventory: &Inventory) -> Result<Value, AllocError>
    ensures { IfOk result (λ v. view v ≡ spec.summary_reply tenant.now inventory.now) }
{
    json!(in alloc; {
        "devices": inventory.devices().states().len() as u64,
        "epoch": inventory.epoch(),
        "pools": inventory.pools().len() as u64,
        "tenant": tenant,
        "versions": inventory.newest()
    })
}

/// Makes the body of the reply to a removal: the tenant's name.
fn removal_reply(alloc: Global, tenant: &str) -> Result<Value, AllocError>
    ensures { IfOk result (λ v. view v ≡ spec.removal_reply tenant.now) }
{
    json!(in alloc; {"dropped": tenant})
}

// ---- replies

/// Makes the reply to the creation of a tenant.
pub(crate) fn create(alloc: Global, tenant: &str) -> Result<Reply, AllocError>
    ensures { IfOk result (λ r. r ≡ reply (created (spec.creation_reply tenant.now))) }
{
    created(alloc, &creation_reply(alloc, tenant)?)
}

/// Makes the reply that says what a tenant has.
pub(crate) fn show(alloc: Global, tenant: &str, inventory: &Inventory) -> Result<Reply, AllocError>
    ensures { IfOk result (λ r. r ≡ reply (success (spec.summary_reply tenant.now inventory.now))) }
{
    success(alloc, &summary_reply(alloc, tenant, inventory)?)
}

/// Makes the reply to the removal of a tenant.
pub(crate) fn drop_tenant(alloc: Global, tenant: &str) -> Result<Reply, AllocError>
    ensures { IfOk result (λ r. r ≡ reply (success (spec.removal_reply tenant.now))) }
{
    success(alloc, &removal_reply(alloc, tenant)?)
}

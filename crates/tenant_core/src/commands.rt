//! Changing requests: each has a request number, and acts once.

ghost use Rattle.std.specs.Prelude.{◌≡◌, ◌<◌, ◌^◌, Ok, Err, None, Some, IfOk, option_map, nat_le, false};
ghost use Rattle.serde_json.specs.View.{view};
ghost use Rattle.serde_json.specs.Written.{has_float};
ghost use Rattle.tenant_core.specs.Commands as spec;
ghost use Rattle.tenant_core.specs.Effects.{effect_of};
ghost use Rattle.tenant_resources.specs.Orders.{accepted_of};
ghost use Rattle.tenant_messages.specs.Refusals.{Gives};
ghost use Rattle.tenant_messages.specs.Reply.{reply};
ghost use Rattle.tenant_state.specs.Made.{made_of};
ghost use Rattle.tenant_state.specs.State.{TenantState};
ghost use Rattle.tenant_state.specs.Valid.{IsInventory, IsMade};

use crush_map::{Sequence, Text};
use crush_pool::{DeviceChange, Pair, Pool};
use crush_text::texts_are_read_as_they_say;
use std::alloc::{AllocError, Global};
use std::marker::Model;
use std::rc::Rc;
use tenant_messages::{Problem, Refusal, Reply, answered, refused, repeated};
use tenant_resources::{Acceptance, devices, exceptions, maps, pools};
use tenant_state::limits::RECEIPT_LIMIT;
use tenant_state::{Change, Inventory, Receipt, TenantState, is_repeat};

/// What a changing request asks for.
#[derive(Drop)]
pub enum Order {
    /// A version with the map of this text.
    ImportMap(Text),
    /// These changes of the states of devices.
    ChangeDevices(Sequence<DeviceChange>),
    /// This pool.
    CreatePool(Pool),
    /// These pairs as all the exceptions of the pool with this id.
    SetExceptions(u32, Sequence<Pair>),
    /// The removal of the pool with this id, with its exceptions.
    RemovePool(u32),
}

/// A changing request, as it is read (`IsCommand`). Its path and body are borrowed from its call; a
/// repeat is recognized by them.
#[derive(Drop)]
pub struct Command<'a> {
    /// The request number, of 1 to `REQUEST_NUMBER_LIMIT` bytes.
    pub number: Text,
    pub path: &'a str,
    pub body: &'a str,
    pub order: Order,
}

impl<'a> Model for Command<'a> {
    ghost use Rattle.tenant_core.specs.Commands.{Command, IsCommand};

    ghost Value = { Command };

    ghost view = { λ a. record { number = a.number; path = a.path.now; body = a.body.now; order = a.order } };

    ghost invariant = { λ a. IsCommand (record { number = a.number; path = a.path.now; body = a.body.now; order = a.order }) };
}

/// Accepts an order, with the reply, or says why not: the table of all orders.
fn accept(alloc: Global, order: &Order, inventory: &Inventory) -> Result<Acceptance, Refusal>
    requires epoch { inventory.now.epoch < 2 ^ 32 }
    requires order { spec.IsOrder order.now }
    requires valid { IsInventory inventory.now }
    ensures given { Gives accepted_of result (spec.order_on order.now inventory.now) }
    ensures plain { IfOk result (λ a. has_float (view a.body) ≡ false) }
    ensures made { IfOk result (λ a. IsMade (made_of a.made)) }
{
    texts_are_read_as_they_say();
    match order {
        Order::ImportMap(text) => maps::import(alloc, text.as_str(), inventory),
        Order::ChangeDevices(changes) => devices::change_devices(
            alloc,
            changes.as_slice(),
            inventory,
        ),
        Order::CreatePool(pool) => pools::create(alloc, pool, inventory),
        Order::SetExceptions(id, pairs) => {
            exceptions::set(alloc, *id, pairs.as_slice(), inventory)
        }
        Order::RemovePool(id) => pools::remove(alloc, *id, inventory),
    }
}

/// Makes the change of an accepted order, with its receipt, and the reply. `Err(AllocError)`: an
/// allocation failed; `accepted` is dropped.
fn with_receipt(
    alloc: Global,
    command: &Command<'_>,
    accepted: Acceptance,
) -> Result<(Option<Change>, Reply), AllocError>
    requires plain { has_float (view accepted.body) ≡ false }
    requires made { IsMade (made_of accepted.made) }
    ensures effect { IfOk result (λ p. effect_of p.0 ≡ (spec.change_or_refusal command.now (Ok (accepted_of accepted))).effect) }
    ensures reply { IfOk result (λ p. p.1 ≡ reply (spec.change_or_refusal command.now (Ok (accepted_of accepted))).answer) }
{
    let reply = answered(alloc, accepted.status, &accepted.body)?;
    let receipt = Receipt {
        path: Text::copy(alloc, command.path)?,
        body: Text::copy(alloc, command.body)?,
        status: accepted.status,
        reply: Text::copy(alloc, reply.body.as_str())?,
    };
    let change = Change {
        number: Text::copy(alloc, command.number.as_str())?,
        receipt: Rc::new(alloc, receipt)?,
        made: accepted.made,
    };
    Ok((Some(change), reply))
}

/// Decides what a command with a new request number does: its change, if it is accepted, and the
/// reply.
fn apply_new(
    alloc: Global,
    inventory: &Inventory,
    command: &Command<'_>,
) -> Result<(Option<Change>, Reply), AllocError>
    ensures effect { IfOk result (λ p. effect_of p.0 ≡ (spec.on_receipt command.now inventory.now None).effect) }
    ensures reply { IfOk result (λ p. p.1 ≡ reply (spec.on_receipt command.now inventory.now None).answer) }
{
    if inventory.epoch() >= RECEIPT_LIMIT as u64 {
        return Ok((None, refused(alloc, Problem::TenantLimit)?));
    }
    match accept(alloc, &command.order, inventory) {
        Ok(accepted) => with_receipt(alloc, command, accepted),
        Err(Refusal::Problem(problem)) => Ok((None, refused(alloc, problem)?)),
        Err(Refusal::NoMemory) => Err(AllocError),
    }
}

/// Makes the reply to a command whose request number has a receipt: that of the receipt again, or
/// the one that names `RequestReused` where another request left it.
fn reply_again(alloc: Global, command: &Command<'_>, receipt: &Receipt) -> Result<Reply, AllocError>
    ensures { IfOk result (λ r. r ≡ reply (spec.again command.now receipt.now)) }
{
    if is_repeat(command.path, command.body, receipt) {
        repeated(alloc, receipt.status, receipt.reply.as_str())
    } else {
        refused(alloc, Problem::RequestReused)
    }
}

/// Decides what a changing request does to a tenant with this inventory, from the receipt of the
/// request number, if there is one: its change, if it is accepted, and its reply, which is that of
/// the receipt where the request is a repeat. `Err(AllocError)`: an allocation failed; nothing is
/// changed.
///
/// The change isn't made yet (`TenantState::change`, `TenantState::after`).
pub fn apply_to(
    alloc: Global,
    inventory: &Inventory,
    receipt: Option<&Receipt>,
    command: &Command<'_>,
) -> Result<(Option<Change>, Reply), AllocError>
    ensures effect { IfOk result (λ p. effect_of p.0 ≡ (spec.on_receipt command.now inventory.now (option_map (λ r. r.now) receipt.entry)).effect) }
    ensures reply { IfOk result (λ p. p.1 ≡ reply (spec.on_receipt command.now inventory.now (option_map (λ r. r.now) receipt.entry)).answer) }
{
    match receipt {
        Some(receipt) => Ok((None, reply_again(alloc, command, receipt)?)),
        None => apply_new(alloc, inventory, command),
    }
}

/// Decides the same from the whole state of the tenant.
pub fn apply(
    alloc: Global,
    state: &TenantState,
    command: &Command<'_>,
) -> Result<(Option<Change>, Reply), AllocError>
    ensures effect { IfOk result (λ p. effect_of p.0 ≡ (spec.decision command.now state.now).effect) }
    ensures reply { IfOk result (λ p. p.1 ≡ reply (spec.decision command.now state.now).answer) }
{
    let receipt = state.receipts().find(command.number.as_str())?;
    apply_to(alloc, state.inventory(), receipt.as_deref(), command)
}

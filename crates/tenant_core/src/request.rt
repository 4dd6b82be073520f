//! Reading a call as a request: its checks in their order.

ghost use Rattle.std.specs.Prelude.{◌≡◌, option_map};
ghost use Rattle.tenant_messages.specs.CallParts.{call_of};
ghost use Rattle.tenant_messages.specs.Reading.{Reads};
ghost use Rattle.tenant_messages.specs.Refusals.{Gives};
ghost use Rattle.tenant_core.specs.Request as spec;

use crate::commands::Command;
use crate::limits::BODY_LIMIT;
use crate::queries::Query;
use crate::route::{Route, read};
use crate::router::{Routes, Target};
use crush_map::is_name;
use std::alloc::Global;
use std::marker::Model;
use tenant_messages::{CallParts, Problem, Refusal};

/// What a request asks for.
#[derive(Drop)]
pub enum Action<'a> {
    /// That the tenant is created.
    CreateTenant,
    /// How much the tenant has.
    ShowTenant,
    /// That the tenant is removed, with everything of it.
    DropTenant,
    /// A change of the tenant's state.
    Command(Command<'a>),
    /// An answer from the tenant's state.
    Query(Query),
}

/// What is asked of a tenant. The tenant's name, and the path and the body of a command, are
/// borrowed from the call.
#[derive(Drop)]
pub struct Request<'a> {
    /// The tenant's name: 1 to 64 bytes of `A-Z a-z 0-9 . _ -`.
    pub tenant: &'a str,
    pub action: Action<'a>,
}

impl<'a> Model for Request<'a> {
    ghost use Rattle.tenant_core.specs.Request.{Request};

    ghost Value = { Request };

    ghost view = { λ a. record { tenant = a.tenant.now; action = a.action } };
}

// ---- the tenant

/// Reads the name of the tenant, the path's parameter `t`; returns `None` where it isn't a name.
fn tenant_in<'p>(target: &Target<'_, 'p>) -> Option<&'p str>
    ensures { option_map (λ name. name.now) result ≡ spec.tenant_in target.now }
{
    let name = target.parameter("t")?;
    if is_name(name) { Some(name) } else { None }
}

// ---- all of it

/// Reads the tenant's name, and what the route asks for. The problem is `BadRequest`, exactly where
/// one of them doesn't have its form.
fn in_form<'p>(
    alloc: Global,
    target: &Target<'_, 'p>,
    body: &'p [u8],
    route: Route,
) -> Result<Request<'p>, Refusal>
    ensures { Reads (λ r. r) result (spec.in_form target.now body.now route) }
{
    let tenant = tenant_in(target).ok_or(Problem::BadRequest)?;
    let action = read(alloc, route, target, body)?;
    Ok(Request { tenant, action })
}

/// Reads the request of a call. The problem is that of the first check that fails, in this order:
/// the length of the body (`TooLarge`), the path (`NoPath`), the method (`Method`), and the
/// tenant's name, the numbers in the path and the form of the body (`BadRequest`).
#[tactic(auto, unfolding(crate::specs::Request::request_of))]
pub fn read_request<'a>(
    alloc: Global,
    routes: &Routes,
    call: CallParts<'a>,
) -> Result<Request<'a>, Refusal>
    ensures { Gives (λ r. r) result (spec.request_of (call_of call.entry)) }
{
    if call.body.len() > BODY_LIMIT {
        return Err(Refusal::Problem(Problem::TooLarge));
    }
    let target = routes.find(call.path).ok_or(Problem::NoPath)?;
    let route = target.route(call.method).ok_or(Problem::Method)?;
    in_form(alloc, &target, call.body, route)
}

//! Replies: a status, and a body of compact JSON.

ghost use Rattle.std.specs.Prelude.{◌≡◌, false, IfOk};
ghost use Rattle.serde_json.specs.View.{view};
ghost use Rattle.serde_json.specs.Written.{has_float};
ghost use Rattle.tenant_messages.specs.Reply as spec;

use crush_grammar::{TextFault, code_text};
use crush_map::Text;
use serde_json::{Value, json};
use std::alloc::{AllocError, Global};

/// The reply to a call: an HTTP status, and a body of compact JSON. The body of a 503 where an
/// allocation failed is empty: the writer of the reply adds its text.
#[derive(Drop)]
pub struct Reply {
    pub status: u16,
    pub body: Text,
}

/// The status of a request that is done.
#[derive(Clone, Copy, Debug, PartialEq, Eq)]
pub enum SuccessStatus {
    /// 200.
    Done,
    /// 201: something was created.
    Created,
}

impl SuccessStatus {
    ghost use Rattle.std.specs.Prelude.{◌≡◌};
    ghost use Rattle.tenant_messages.specs.Reply.{success_status};

    /// Returns the HTTP status.
    pub fn status(self) -> u16
        ensures { result ≡ success_status self }
    {
        match self {
            SuccessStatus::Done => 200,
            SuccessStatus::Created => 201,
        }
    }
}

/// Why a call is refused.
#[derive(Clone, Copy, Debug, PartialEq, Eq)]
pub enum Problem {
    /// 400: a part of the path or the body isn't of its form.
    BadRequest,
    /// 404: the path has no route.
    NoPath,
    /// 404: there is no such tenant.
    NoTenant,
    /// 404: the tenant has no such version.
    NoVersion,
    /// 404: the tenant has no such pool.
    NoPool,
    /// 404: the pool has no such group.
    NoGroup,
    /// 404: the map has no such rule.
    NoRule,
    /// 404: the map has no such device.
    NoDevice,
    /// 405: the path has a route, but not for this method.
    Method,
    /// 409: the tenant exists, or a pool has the id or the name.
    Exists,
    /// 409: the request number has a receipt of another request.
    RequestReused,
    /// 409: the new map has no rule with the id that a pool names.
    RuleInUse,
    /// 413: the body is over its limit.
    TooLarge,
    /// 422: the text is refused for this first fault.
    MapRefused(TextFault),
    /// 429: the tenant has as many receipts, versions or pools as it may have.
    TenantLimit,
}

/// Why a request isn't carried out: a problem, which its reply names, or a failed allocation.
#[derive(Clone, Copy, Debug, PartialEq, Eq)]
pub enum Refusal {
    Problem(Problem),
    /// An allocation failed.
    NoMemory,
}

impl From<AllocError> for Refusal {
    ghost use Rattle.std.specs.Prelude.{◌≡◌};
    ghost use Rattle.tenant_messages.specs.declared.reply.Refusal.TheVariants.{NoMemory};

    ghost from_gives = { λ _ refusal. refusal ≡ NoMemory };

    fn from(_error: AllocError) -> Refusal {
        Refusal::NoMemory
    }
}

impl From<Problem> for Refusal {
    ghost use Rattle.std.specs.Prelude.{◌≡◌};
    ghost use Rattle.tenant_messages.specs.declared.reply.Refusal.TheVariants as refusal;

    ghost from_gives = { λ problem given. given ≡ refusal.Problem problem };

    fn from(problem: Problem) -> Refusal {
        Refusal::Problem(problem)
    }
}

impl Problem {
    ghost use Rattle.std.specs.Prelude.{◌≡◌};
    ghost use Rattle.tenant_messages.specs.Reply.{problem_status, problem_code};

    /// Returns the HTTP status.
    pub fn status(self) -> u16
        ensures { result ≡ problem_status self }
    {
        match self {
            Problem::BadRequest => 400,
            Problem::NoPath
            | Problem::NoTenant
            | Problem::NoVersion
            | Problem::NoPool
            | Problem::NoGroup
            | Problem::NoRule
            | Problem::NoDevice => 404,
            Problem::Method => 405,
            Problem::Exists | Problem::RequestReused | Problem::RuleInUse => 409,
            Problem::TooLarge => 413,
            Problem::MapRefused(_) => 422,
            Problem::TenantLimit => 429,
        }
    }

    /// Returns the code that the body names.
    pub fn code(self) -> &'static str
        ensures { result.now ≡ problem_code self }
    {
        match self {
            Problem::BadRequest => "bad_request",
            Problem::NoPath => "no_path",
            Problem::NoTenant => "no_tenant",
            Problem::NoVersion => "no_version",
            Problem::NoPool => "no_pool",
            Problem::NoGroup => "no_group",
            Problem::NoRule => "no_rule",
            Problem::NoDevice => "no_device",
            Problem::Method => "method",
            Problem::Exists => "exists",
            Problem::RequestReused => "request_reused",
            Problem::RuleInUse => "rule_in_use",
            Problem::TooLarge => "too_large",
            Problem::MapRefused(_) => "map_refused",
            Problem::TenantLimit => "tenant_limit",
        }
    }
}

/// Makes the reply with `status` and `value` as compact JSON. `Err(AllocError)`: an allocation
/// failed; nothing is changed.
pub fn written(alloc: Global, status: u16, value: &Value) -> Result<Reply, AllocError>
    requires { has_float (view value.now) ≡ false }
    ensures { IfOk result (λ r. r ≡ spec.written status (view value.now)) }
{
    let body = Text::new(value.to_string(alloc)?);
    Ok(Reply { status, body })
}

/// Makes the body that names an error: `{"error": CODE}`.
pub fn error(alloc: Global, code: &str) -> Result<Value, AllocError>
    ensures { IfOk result (λ v. view v ≡ spec.error code.now) }
{
    json!(in alloc; {"error": code})
}

/// Makes the body that names the first fault of a map text: its code, and its line, from 1 on.
fn map_error(alloc: Global, fault: TextFault) -> Result<Value, AllocError>
    ensures { IfOk result (λ v. view v ≡ spec.map_error fault) }
{
    json!(in alloc; {
        "error": "map_refused",
        "fault": code_text(fault.code),
        "line": fault.line as u64
    })
}

/// Makes the body of the reply that names `problem`.
fn problem_json(alloc: Global, problem: Problem) -> Result<Value, AllocError>
    ensures { IfOk result (λ v. view v ≡ spec.problem_json problem) }
{
    match problem {
        Problem::MapRefused(fault) => map_error(alloc, fault),
        _ => error(alloc, problem.code()),
    }
}

/// Makes the reply to a call that is refused: the problem's status, and the body that names it.
#[tactic(auto, unfolding(crate::specs::Reply::reply))]
pub fn refused(alloc: Global, problem: Problem) -> Result<Reply, AllocError>
    ensures { IfOk result (λ r. r ≡ spec.reply (spec.refused problem)) }
{
    written(alloc, problem.status(), &problem_json(alloc, problem)?)
}

// ---- answers

/// Makes the reply to a request that is done, with `value` as its body.
#[tactic(auto, unfolding(crate::specs::Reply::reply))]
pub fn answered(alloc: Global, status: SuccessStatus, value: &Value) -> Result<Reply, AllocError>
    requires { has_float (view value.now) ≡ false }
    ensures { IfOk result (λ r. r ≡ spec.reply (spec.answered status (view value.now))) }
{
    written(alloc, status.status(), value)
}

/// Makes the reply 200 with `value` as its body.
pub fn success(alloc: Global, value: &Value) -> Result<Reply, AllocError>
    requires { has_float (view value.now) ≡ false }
    ensures { IfOk result (λ r. r ≡ spec.reply (spec.success (view value.now))) }
{
    answered(alloc, SuccessStatus::Done, value)
}

/// Makes the reply 201, which says that something was created, with `value` as its body.
pub fn created(alloc: Global, value: &Value) -> Result<Reply, AllocError>
    requires { has_float (view value.now) ≡ false }
    ensures { IfOk result (λ r. r ≡ spec.reply (spec.created (view value.now))) }
{
    answered(alloc, SuccessStatus::Created, value)
}

/// Makes the reply of an earlier request once more, from its status and its body.
#[tactic(auto, unfolding(crate::specs::Reply::reply))]
pub fn repeated(alloc: Global, status: SuccessStatus, body: &str) -> Result<Reply, AllocError>
    ensures { IfOk result (λ r. r ≡ spec.reply (spec.repeated status body.now)) }
{
    Ok(Reply {
        status: status.status(),
        body: Text::copy(alloc, body)?,
    })
}

/// Makes the reply where an allocation failed: 503 with an empty body. Allocates nothing.
pub fn no_memory(alloc: Global) -> Reply
    ensures { result ≡ spec.no_memory }
{
    Reply {
        status: 503,
        body: Text::new(String::new(alloc)),
    }
}

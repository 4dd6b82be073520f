//! Queries: questions about a tenant's state, which is unchanged by them.

ghost use Rattle.std.specs.Prelude.{◌≡◌, IfOk};
ghost use Rattle.tenant_core.specs.Queries as spec;
ghost use Rattle.tenant_messages.specs.Refusals.{Answers};
ghost use Rattle.tenant_messages.specs.Reply.{reply};

use std::alloc::{AllocError, Global};
use tenant_messages::{Refusal, Reply, refused};
use tenant_reports::{PickRequest, impact, moves, picks, usage};
use tenant_resources::{ObjectName, RuleTest, exceptions, groups, maps, rule_tests};
use tenant_state::Inventory;

/// What is asked of a tenant's state.
#[derive(Drop)]
pub enum Query {
    /// The text of the version with this number.
    Version(u64),
    /// The exceptions of the pool with this number.
    Exceptions(u64),
    /// Where a group lies: in the pool with the first number, the group with the second.
    Group(u64, u64),
    /// Where the object with this name lies in the pool with this number.
    Object(u64, ObjectName),
    /// How much of the pool with this number lies on each device.
    Usage(u64),
    /// Which groups, of the pool with the first number, move from the version with the second to
    /// that with the third.
    Moves(u64, u64, u64),
    /// Which groups, of the pool with the first number, the device with the second can touch.
    Impact(u64, u64),
    /// What a bucket picks.
    Pick(PickRequest),
    /// What a rule gives.
    Test(RuleTest),
}

/// Makes the reply to a query, from what its tenant has, or returns the problem: the table of all
/// queries.
fn reply_or_refusal(alloc: Global, inventory: &Inventory, query: &Query) -> Result<Reply, Refusal>
    ensures { Answers result (spec.answer query.now inventory.now) }
{
    match query {
        Query::Version(number) => maps::answer(alloc, *number, inventory),
        Query::Exceptions(pool) => exceptions::answer(alloc, *pool, inventory),
        Query::Group(pool, group) => groups::group_answer(alloc, *pool, *group, inventory),
        Query::Object(pool, name) => groups::object_answer(alloc, *pool, name, inventory),
        Query::Usage(pool) => usage::answer(alloc, *pool, inventory),
        Query::Moves(pool, from, to) => moves::answer(alloc, *pool, *from, *to, inventory),
        Query::Impact(pool, device) => impact::answer(alloc, *pool, *device, inventory),
        Query::Pick(pick) => Ok(picks::answer(alloc, pick)?),
        Query::Test(test) => rule_tests::answer(alloc, test, inventory),
    }
}

/// Makes the reply to a query, from what its tenant has, or the reply that names the problem.
/// `Err(AllocError)`: an allocation failed; nothing is changed.
pub fn answer(alloc: Global, inventory: &Inventory, query: &Query) -> Result<Reply, AllocError>
    ensures { IfOk result (λ r. r ≡ reply (spec.answer query.now inventory.now)) }
{
    match reply_or_refusal(alloc, inventory, query) {
        Ok(reply) => Ok(reply),
        Err(Refusal::Problem(problem)) => refused(alloc, problem),
        Err(Refusal::NoMemory) => Err(AllocError),
    }
}

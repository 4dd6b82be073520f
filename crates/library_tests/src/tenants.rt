//! Calls of `tenant_core`.

ghost use Rattle.std.specs.Prelude.{IfOk};
ghost use Rattle.tenant_core.specs.tenant_state.specs.State.{CanMake, fresh};

use crate::same::assert_same;
use common_tests::imports::FIRST;
use std::alloc::Global;
use std::test::Fail;
use tenant_core::{
    Action, CallParts, Change, Command, Inventory, Problem, Product, Refusal, Reply, Routes,
    TenantState, answer, apply, apply_to, create, laws, read_request, refused,
};

/// Returns the import of a map by a tenant.
fn import_call<'a>() -> CallParts<'a> {
    CallParts {
        method: b"POST",
        path: "/t/a/maps",
        body: FIRST.as_bytes(),
    }
}

/// Makes the change that a first import makes of a state. `Err`: an allocation failed, or the reply
/// isn't that to a first import.
fn change_of(alloc: Global, state: &TenantState, command: &Command<'_>) -> Result<Change, Fail>
    ensures { IfOk result (λ change. CanMake change state.now) }
{
    laws::each_decision_fits_its_state();
    let (change, reply): (Option<Change>, Reply) = apply(alloc, state, command)?;
    if reply.status != 201 || reply.body.as_str() != "{\"epoch\":1,\"version\":1}" {
        return Err(Fail::new("the import has another reply"));
    }
    match change {
        Some(change) => Ok(change),
        None => Err(Fail::new("the import makes no change")),
    }
}

/// Makes the change that an import makes of a tenant that was just created. `Err`: an allocation
/// failed, or the reply isn't that to a first import.
pub(crate) fn first_change(alloc: Global) -> Result<Change, Fail>
    ensures { IfOk result (λ change. CanMake change fresh) }
{
    let routes = Routes::build(alloc)?;
    let Ok(request) = read_request(alloc, &routes, import_call()) else {
        return Err(Fail::new("the import isn't read"));
    };
    let Action::Command(command) = &request.action else {
        return Err(Fail::new("the import is no command"));
    };
    let state: TenantState = create(alloc)?;
    change_of(alloc, &state, command)
}

/// Answers an import by a tenant that has no receipt of it. `Err`: an allocation failed, or the
/// call isn't read as a command.
fn imported(alloc: Global, inventory: &Inventory) -> Result<Reply, Fail> {
    let routes = Routes::build(alloc)?;
    let Ok(request) = read_request(alloc, &routes, import_call()) else {
        return Err(Fail::new("the import isn't read"));
    };
    let Action::Command(command) = &request.action else {
        return Err(Fail::new("the import is no command"));
    };
    let (_change, reply): (Option<Change>, Reply) = apply_to(alloc, inventory, None, command)?;
    Ok(reply)
}

/// Answers a pick by a tenant. `Err`: an allocation failed, or the call isn't read as a query.
fn picked(alloc: Global, inventory: &Inventory) -> Result<Reply, Fail> {
    let routes = Routes::build(alloc)?;
    let pick = CallParts {
        method: b"POST",
        path: "/t/a/pick",
        body: b"{\"bucket\":{\"id\":-1,\"items\":[{\"item\":4,\"weight\":0},{\"item\":9,\"weight\":65536}],\"kind\":\"list\"},\"r\":0,\"x\":5}",
    };
    let Ok(request) = read_request(alloc, &routes, pick) else {
        return Err(Fail::new("the pick isn't read"));
    };
    let Action::Query(query) = &request.action else {
        return Err(Fail::new("the pick is no query"));
    };
    Ok(answer(alloc, inventory, query)?)
}

/// The list's second item is picked, which alone has a weight.
#[test]
fn tenant_core_has_its_calls(rt: HostRuntime) -> Result<(), Fail> {
    let alloc = rt.alloc();
    let change = first_change(alloc)?;
    assert!(rt; matches!(&change.made, Product::Version(_)));
    let state = create(alloc)?.after(alloc, &change)?;
    assert_same(&rt, &state.inventory().newest(), &1);
    let fresh = create(alloc)?;
    let reply = imported(alloc, fresh.inventory())?;
    assert_same(&rt, &reply.status, &201);
    let reply = picked(alloc, state.inventory())?;
    assert_same(&rt, &reply.status, &200);
    assert_same(&rt, &reply.body.as_str(), &"{\"item\":9}");
    Ok(())
}

/// A path that no route has is refused, and the reply says so.
#[test]
fn refusals_have_their_replies(rt: HostRuntime) -> Result<(), Fail> {
    let alloc = rt.alloc();
    let routes = Routes::build(alloc)?;
    let nowhere = CallParts {
        method: b"GET",
        path: "/x",
        body: b"",
    };
    let Err(Refusal::Problem(problem)) = read_request(alloc, &routes, nowhere) else {
        return Err(Fail::new("a path without a route is read"));
    };
    assert!(rt; matches!(problem, Problem::NoPath));
    let reply = refused(alloc, problem)?;
    assert_same(&rt, &reply.status, &404);
    assert_same(&rt, &reply.body.as_str(), &"{\"error\":\"no_path\"}");
    Ok(())
}

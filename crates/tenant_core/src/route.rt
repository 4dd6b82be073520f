//! All routes: the paths with their methods, and what each route asks for.

ghost use Rattle.std.specs.Prelude.{◌≡◌, true};
ghost use Rattle.tenant_messages.specs.Reading.{Reads};
ghost use Rattle.tenant_messages.specs.Numbers.{has_length};
ghost use Rattle.tenant_core.specs.Commands.{IsOrder};
ghost use Rattle.tenant_core.specs.Route as spec;
ghost use Rattle.tenant_core.specs.Target.{path_number};

use crate::commands::{Command, Order};
use crate::queries::Query;
use crate::request::Action;
use crate::router::Target;
use crush_grammar::number_from_text;
use crush_map::Text;
use std::alloc::Global;
use tenant_messages::{Problem, Refusal, read_value, text_of};
use tenant_reports::{device_csv, picks};
use tenant_resources::{devices, exceptions, groups, maps, pools, rule_tests};

/// The routes: what a method asks for at a path.
#[derive(Clone, Copy, Debug, PartialEq, Eq)]
pub enum Route {
    CreateTenant,
    ShowTenant,
    DropTenant,
    ImportMap,
    Version,
    ChangeDevices,
    ChangeDevicesByCsv,
    CreatePool,
    SetExceptions,
    RemovePool,
    Exceptions,
    Group,
    Object,
    Usage,
    Moves,
    Impact,
    Pick,
    Test,
}

/// The routes of a path: one for each method that the path has.
#[derive(Clone, Copy, Debug, PartialEq, Eq)]
pub struct Methods {
    pub delete: Option<Route>,
    pub get: Option<Route>,
    pub post: Option<Route>,
    pub put: Option<Route>,
}

/// The methods of a path, each with the name of its route.
macro_rules! methods {
    ($($method:ident $route:ident),+) => {
        Methods { $($method: Some(Route::$route),)+ ..NONE }
    };
}

/// A path without a method.
const NONE: Methods = Methods {
    delete: None,
    get: None,
    post: None,
    put: None,
};

/// The table of all routes.
pub(crate) const ROUTES: [(&str, Methods); 16] = [
    (
        "/t/{t}",
        methods!(delete DropTenant, get ShowTenant, put CreateTenant),
    ),
    ("/t/{t}/maps", methods!(post ImportMap)),
    ("/t/{t}/maps/{v}", methods!(get Version)),
    ("/t/{t}/devices", methods!(post ChangeDevices)),
    ("/t/{t}/devices/csv", methods!(post ChangeDevicesByCsv)),
    ("/t/{t}/pools", methods!(post CreatePool)),
    ("/t/{t}/pools/exceptions", methods!(post SetExceptions)),
    ("/t/{t}/pools/remove", methods!(post RemovePool)),
    ("/t/{t}/pools/{p}/exceptions", methods!(get Exceptions)),
    ("/t/{t}/pools/{p}/groups/{g}", methods!(get Group)),
    ("/t/{t}/pools/{p}/locate", methods!(post Object)),
    ("/t/{t}/pools/{p}/usage", methods!(get Usage)),
    ("/t/{t}/pools/{p}/moves/{v}/{w}", methods!(get Moves)),
    ("/t/{t}/pools/{p}/impact/{d}", methods!(get Impact)),
    ("/t/{t}/pick", methods!(post Pick)),
    ("/t/{t}/test", methods!(post Test)),
];

/// Returns the route of a method, if the path has the method.
pub(crate) fn route_of(method: &[u8], methods: Methods) -> Option<Route>
    ensures { result ≡ spec.route_of method.now methods }
{
    if method == b"DELETE".as_slice() {
        methods.delete
    } else if method == b"GET".as_slice() {
        methods.get
    } else if method == b"POST".as_slice() {
        methods.post
    } else if method == b"PUT".as_slice() {
        methods.put
    } else {
        None
    }
}

// ---- the parts of the path, and the body

/// Reads the number that a part of the path writes, in 1 to 10 digits. The problem is `BadRequest`,
/// exactly where the part isn't one.
fn number(target: &Target<'_, '_>, key: &str) -> Result<u64, Refusal>
    ensures { Reads (λ n. n) result (path_number key.now target.now) }
{
    let part = target.parameter(key).ok_or(Problem::BadRequest)?;
    Ok(number_from_text(part.as_bytes()).ok_or(Problem::BadRequest)?)
}

/// Returns `action` if `body` is empty. The problem is `BadRequest`, exactly where it isn't.
fn if_empty<'p>(body: &[u8], action: Action<'p>) -> Result<Action<'p>, Refusal>
    ensures { Reads (λ a. a) result (spec.if_empty body.now action.entry) }
{
    if body.is_empty() {
        Ok(action)
    } else {
        Err(Refusal::Problem(Problem::BadRequest))
    }
}

/// Makes a changing request, with its path and its body, by which a repeat is recognized.
fn command<'p>(target: &Target<'_, 'p>, body: &'p str, number: Text, order: Order) -> Action<'p>
    requires number { has_length number ≡ true }
    requires order { IsOrder order }
    ensures { result ≡ spec.command_of target.now body.now number order }
{
    // the prover knows that a string slice is UTF-8, but not that a `Text` is
    let _number = number.as_str();
    Action::Command(Command {
        number,
        path: target.path(),
        body,
        order,
    })
}

/// Reads what a route asks for, from the parts of the path and the body. The problem is
/// `BadRequest`, exactly where one of them doesn't have its form.
pub(crate) fn read<'p>(
    alloc: Global,
    route: Route,
    target: &Target<'_, 'p>,
    body: &'p [u8],
) -> Result<Action<'p>, Refusal>
    ensures { Reads (λ a. a) result (spec.read route target.now body.now) }
{
    match route {
        Route::CreateTenant => if_empty(body, Action::CreateTenant),
        Route::ShowTenant => if_empty(body, Action::ShowTenant),
        Route::DropTenant => if_empty(body, Action::DropTenant),
        Route::ImportMap => {
            let body = text_of(body)?;
            let (number, text) = maps::read_import(alloc, &read_value(alloc, body)?)?;
            Ok(command(target, body, number, Order::ImportMap(text)))
        }
        Route::Version => if_empty(body, Action::Query(Query::Version(number(target, "v")?))),
        Route::ChangeDevices => {
            let body = text_of(body)?;
            let (number, changes) = devices::read_changes(alloc, &read_value(alloc, body)?)?;
            Ok(command(target, body, number, Order::ChangeDevices(changes)))
        }
        Route::ChangeDevicesByCsv => {
            let body = text_of(body)?;
            let (number, changes) = device_csv::read_changes(alloc, &read_value(alloc, body)?)?;
            Ok(command(target, body, number, Order::ChangeDevices(changes)))
        }
        Route::CreatePool => {
            let body = text_of(body)?;
            let (number, pool) = pools::read_pool(alloc, &read_value(alloc, body)?)?;
            Ok(command(target, body, number, Order::CreatePool(pool)))
        }
        Route::SetExceptions => {
            let body = text_of(body)?;
            let value = read_value(alloc, body)?;
            let (number, (id, pairs)) = exceptions::read_exceptions(alloc, &value)?;
            let order = Order::SetExceptions(id, pairs);
            Ok(command(target, body, number, order))
        }
        Route::RemovePool => {
            let body = text_of(body)?;
            let (number, id) = pools::read_removal(alloc, &read_value(alloc, body)?)?;
            Ok(command(target, body, number, Order::RemovePool(id)))
        }
        Route::Exceptions => {
            let pool = number(target, "p")?;
            if_empty(body, Action::Query(Query::Exceptions(pool)))
        }
        Route::Group => {
            let (pool, group) = (number(target, "p")?, number(target, "g")?);
            if_empty(body, Action::Query(Query::Group(pool, group)))
        }
        Route::Object => {
            let pool = number(target, "p")?;
            let name = groups::read_name(alloc, &read_value(alloc, text_of(body)?)?)?;
            Ok(Action::Query(Query::Object(pool, name)))
        }
        Route::Usage => if_empty(body, Action::Query(Query::Usage(number(target, "p")?))),
        Route::Moves => {
            let pool = number(target, "p")?;
            let (from, to) = (number(target, "v")?, number(target, "w")?);
            if_empty(body, Action::Query(Query::Moves(pool, from, to)))
        }
        Route::Impact => {
            let (pool, device) = (number(target, "p")?, number(target, "d")?);
            if_empty(body, Action::Query(Query::Impact(pool, device)))
        }
        Route::Pick => {
            let pick = picks::read_pick(alloc, &read_value(alloc, text_of(body)?)?)?;
            Ok(Action::Query(Query::Pick(pick)))
        }
        Route::Test => {
            let value = read_value(alloc, text_of(body)?)?;
            let test = rule_tests::read_test(&value).ok_or(Problem::BadRequest)?;
            Ok(Action::Query(Query::Test(test)))
        }
    }
}

//! The router: the methods of a path, and the parts that its parameters took.

ghost use Rattle.std.specs.Prelude.{◌≡◌, true, fold, is_ok, map, OnOk};
ghost use Rattle.std.specs.Char.{is_ascii};
ghost use Rattle.std.specs.List.{list_all};
ghost use Rattle.matchit.specs.Route.{parse_route};
ghost use Rattle.tenant_core.specs.Private.Inserting.{are_new, is_new};
ghost use Rattle.tenant_core.specs.Router.{table, with_path};

use crate::route::{Methods, ROUTES, Route, route_of};
use matchit::{InsertError, Params, Router};
use std::alloc::{AllocError, Global};
use std::marker::Model;

/// The router of all routes, built once.
#[derive(Drop)]
pub struct Routes {
    router: Router<Methods>,
    ghost whole: { router ≡ table },
}

impl Routes {
    ghost use Rattle.std.specs.Prelude.{◌≡◌};
    ghost use Rattle.tenant_core.specs.Router.{target_of};

    /// Builds the router of all routes. `Err(AllocError)`: an allocation failed; nothing is
    /// changed.
    pub fn build(alloc: Global) -> Result<Self, AllocError> {
        let mut router = Router::new(alloc);
        insert_all(&mut router, &ROUTES)?;
        Ok(Routes { router })
    }

    /// Finds what a path names, or returns `None` where it has no route. Allocates nothing.
    pub fn find<'p>(&self, path: &'p str) -> Option<Target<'_, 'p>>
        ensures { result ≡ target_of path.now }
    {
        let found = self.router.at(path).ok()?;
        Some(Target {
            methods: *found.value,
            path,
            ascii: is_ascii_text(path),
            params: found.params,
        })
    }
}

/// What a path names: its methods, and the parts that the parameters of its route took.
#[derive(Drop)]
pub struct Target<'r, 'p> {
    methods: Methods,
    path: &'p str,
    /// Whether each byte of the path is ASCII.
    ascii: bool,
    params: Params<'r, 'p>,
}

impl<'r, 'p> Model for Target<'r, 'p> {
    ghost use Rattle.std.specs.Prelude.{◌≡◌, true};
    ghost use Rattle.std.specs.Char.{is_ascii};
    ghost use Rattle.std.specs.List.{list_all};
    ghost use Rattle.tenant_core.specs.Target.{Target};

    ghost Value = { Target };

    ghost view = { λ a. record {
      row = record { pattern = a.params.pattern.now; text = a.params.text.now; names = a.params.names.now; value = a.methods };
      path = a.path.now;
    } };

    ghost invariant = { λ a. record {
      path : a.params.path.now ≡ a.path.now;
      ascii : a.ascii ≡ list_all is_ascii a.path.now;
      text : list_all is_ascii a.params.text.now ≡ true;
    } };
}

impl<'r, 'p> Target<'r, 'p> {
    ghost use Rattle.std.specs.Prelude.{◌≡◌, option_map};
    ghost use Rattle.tenant_core.specs.Route.{route_of};
    ghost use Rattle.tenant_core.specs.Target.{methods_in, parameter};

    /// Returns the route of `method`, if the path has this method.
    pub fn route(&self, method: &[u8]) -> Option<Route>
        ensures { result ≡ route_of method.now (methods_in self.now) }
    {
        route_of(method, self.methods)
    }

    /// Returns the path.
    pub fn path(&self) -> &'p str
        ensures { result.now ≡ self.now.path }
    {
        self.path
    }

    /// Returns the part of the path that the parameter `key` took. A path with a byte that isn't
    /// ASCII has no parameters.
    pub fn parameter(&self, key: &str) -> Option<&'p str>
        ensures { option_map (λ text. text.now) result ≡ parameter key.now self.now }
    {
        if self.ascii {
            self.params.get(key)
        } else {
            None
        }
    }
}

/// Returns whether each byte of a text is ASCII.
fn is_ascii_text(text: &str) -> bool
    ensures { result ≡ list_all is_ascii text.now }
{
    text.as_bytes().iter().all(|byte| byte.is_ascii())
}

/// Adds a path, which is well formed and conflicts with none in the router. `Err(AllocError)`: an
/// allocation failed; the router must no longer be used.
fn insert(router: &mut Router<Methods>, path: &str, methods: Methods) -> Result<(), AllocError>
    requires read { is_ok (parse_route path.now) ≡ true }
    requires new { is_new (parse_route path.now) router.old ≡ true }
    ensures { OnOk result (router.new ≡ with_path router.old (path.now, methods)) }
{
    match router.insert(path, methods) {
        Ok(()) => Ok(()),
        Err(InsertError::OutOfMemory) => Err(AllocError),
        Err(_) => unreachable!(),
    }
}

/// Adds paths in order. `Err(AllocError)`: an allocation failed; the router must no longer be used.
fn insert_all(router: &mut Router<Methods>, rows: &[(&str, Methods)]) -> Result<(), AllocError>
    requires { are_new (map (λ row. (row.0.now, row.1)) rows.now) router.old ≡ true }
    ensures { OnOk result (router.new ≡ fold with_path router.old (map (λ row. (row.0.now, row.1)) rows.now)) }
{
    let mut rest = rows;
    while let [(path, methods), others @ ..] = rest {
        insert(router, path, *methods)?;
        rest = others;
    }
    Ok(())
}

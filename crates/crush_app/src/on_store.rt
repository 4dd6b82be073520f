//! Scripts that are played over a store, which is given back at the end.

ghost use Rattle.std.specs.Prelude.{◌≡◌, false};
ghost use Rattle.crush_app.specs.End.{EndsScript, LatchesAs};
ghost use Rattle.crush_app.specs.Play.{PlaysScript};

use crate::play::{ScriptEnd, script_run};
use std::alloc::{AllocError, Global};
use std::io::{Read, Write};
use tenant_core::{Routes, TenantStore};
use tenant_service::Service;

/// Plays a script on a service over a store, as `script_run` does, and returns how that ended, with
/// the store. `Err(AllocError)`: an allocation for the service or for the script itself failed; no
/// line was served, and nothing was written.
pub fn script_on_store<T: TenantStore, R: Read, W: Write>(
    alloc: Global,
    store: T,
    reader: &mut R,
    writer: &mut W,
) -> (Result<ScriptEnd, AllocError>, T)
    requires works { T.latched store ≡ false }

    // This is what `script_run` says of the service.
    ensures ends { EndsScript (result.1 ≡ store)
        (λ end ms. T.is_honest result.1 → PlaysScript end (T.latched result.1) (T.has_state store) (T.has_state result.1) (T.may_leave result.1) ms (W.contents writer.old) (W.contents writer.new))
        result.0 (R.remaining reader.old) (R.remaining reader.new) (W.contents writer.old) (W.contents writer.new) }
    ensures latch { LatchesAs result.0 (T.latched result.1) }
    ensures honest { T.is_honest result.1 → T.is_honest store }
{
    let Ok(routes) = Routes::build(alloc) else {
        return (Err(AllocError), store);
    };
    let mut service = Service::with_routes(alloc, routes, store);
    let end = script_run(alloc, &mut service, reader, writer);
    (end, service.into_store())
}

//! Scripts that begin without tenants: a service over a new store serves their lines.

ghost use Rattle.std.specs.Prelude.{⊤};
ghost use Rattle.crush_app.specs.End.{EndsScript};
ghost use Rattle.crush_app.specs.FromNothing.{PlaysScriptFromNothing};

use crate::{ScriptEnd, script_run};
use std::alloc::{AllocError, Global};
use std::io::{Read, Write};
use std::num::NonZeroUsize;
use tenant_cache::{ByteBound, CachedStore};
use tenant_service::laws::memory_stores_are_honest;
use tenant_service::{MemoryStore, Service};

/// Plays a script on a service over a new store in memory, as `script_run` does, and returns how
/// that ended. The service, which keeps the placements of `placements` groups, is gone afterwards.
///
/// The clause has no premise. It speaks of an input, which is what the reader had where contracts
/// know its bytes.
/// `Err(AllocError)`: an allocation for the service or for the script itself failed; no line was
/// served, nothing was written, and the script may have been read in part.
pub fn script_in_memory<R: Read, W: Write>(
    alloc: Global,
    placements: NonZeroUsize,
    reader: &mut R,
    writer: &mut W,
) -> Result<ScriptEnd, AllocError>
    // Lines were served from nothing, and what was written has the headline; or nothing was.
    ensures ends { EndsScript ⊤ (λ end ms. PlaysScriptFromNothing end ms (W.contents writer.old) (W.contents writer.new))
        result (R.remaining reader.old) (R.remaining reader.new) (W.contents writer.old) (W.contents writer.new) }
{
    memory_stores_are_honest();
    let store = CachedStore::<_, ByteBound<{ u64::MAX }>>::over_memory(
        alloc,
        MemoryStore::new(alloc),
        placements,
    )?;
    let mut service = Service::over(alloc, store)?;
    script_run(alloc, &mut service, reader, writer)
}

//! One session over the files of a database.

ghost use Rattle.std.specs.Prelude.{◌≡◌, false, IsTrue};
ghost use Rattle.sqlite.specs.Held.{state};
ghost use Rattle.sqlite.specs.State.{HasCleanDisk};

use sqlite::{Alter, Connection, Options};
use sqlite_disk::{Disk, Files};
use std::alloc::Global;
use std::num::NonZeroUsize;
use std::process::Abort;
use tenant_cache::{ByteBound, CachedStore};
use tenant_core::{Call, Reply, Routes, TenantStore};
use tenant_files::close_store;
use tenant_service::{Service, SessionEnd};
use tenant_store::Store;

/// The number with which the checksums of a new log begin.
const SALT: u64 = 7;

/// The greatest number of bytes of what tenants have that are kept.
const READY: u64 = 1_000_000;

/// Serves the calls as one session over the store, and gives the store back as it then is.
fn serve<T: TenantStore>(
    rt: &impl Abort,
    alloc: Global,
    store: T,
    calls: &[Call],
) -> (SessionEnd, T)
    requires works { T.latched store ≡ false }
{
    let routes = Routes::build(alloc).expect(rt, "no memory");
    let mut service = Service::with_routes(alloc, routes, store);
    let end = service.run_session(calls).expect(rt, "no memory");
    (end, service.into_store())
}

/// Returns the number of replies that are acknowledgements.
pub(crate) fn acknowledged(replies: &[Reply]) -> usize {
    replies.iter().filter(|reply| reply.status != 503).count()
}

/// Serves the calls as one session over a store that keeps what tenants have, over `below`, and
/// gives `below` back as it then is.
fn serve_ready<T: TenantStore + Drop>(
    rt: &impl Abort,
    alloc: Global,
    below: T,
    calls: &[Call],
) -> (SessionEnd, T)
    requires works { T.latched below ≡ false }
{
    let ready = match CachedStore::<_, ByteBound<READY>>::over(alloc, below, NonZeroUsize::MIN) {
        Ok(ready) => ready,
        Err(_) => rt.abort(),
    };
    let (end, ready) = serve(rt, alloc, ready, calls);
    (end, ready.into_below())
}

/// Opens the store in the tables of a connection, serves the calls as one session over it, and
/// gives the end of the session and the store back. `Err`: the opening is refused, and what is
/// below the connection is given back.
fn served_in<S: Alter + Drop>(
    rt: &impl Abort,
    alloc: Global,
    conn: Connection<S>,
    calls: &[Call],
) -> Result<(SessionEnd, Store<S>), S>
    requires autocommit { conn.in_transaction ≡ false }
    requires open { HasCleanDisk (state S.Store conn) → IsTrue (state S.Store conn).is_open }
    requires settled { HasCleanDisk (state S.Store conn) → (state S.Store conn).now ≡ (state S.Store conn).committed }
{
    match Store::open(alloc, conn) {
        Ok(store) => Ok(serve_ready(rt, alloc, store, calls)),
        Err((_, below)) => Err(below),
    }
}

/// Opens the files, serves the calls as one session, and gives the end of the session and the
/// files back. The log is copied into the database file if `closes` says so and that succeeds.
/// There is no session (`None`) where the opening is refused.
pub(crate) fn session<D: Disk + Drop>(
    rt: &impl Abort,
    alloc: Global,
    files: Files<D>,
    calls: &[Call],
    closes: bool,
) -> (Option<SessionEnd>, Files<D>) {
    if !files.may_be_used() {
        return (None, files);
    }
    let conn = match Connection::open_files(alloc, files, Options::new(SALT)) {
        Ok(conn) => conn,
        Err((_, rest)) => return (None, rest.into_files()),
    };
    match served_in(rt, alloc, conn, calls) {
        Ok((end, store)) if closes => (Some(end), close_store(store).files),
        Ok((end, store)) => (Some(end), store.close().into_store().close()),
        Err(below) => (None, below.close()),
    }
}

//! Sessions one after another, stopped at each call of the store in turn.

ghost use Rattle.std.specs.Prelude.{ℕ, List, [], ◌∷◌, Option, None, IfOk};
ghost use Rattle.tenant_core.specs.States.{Shows};
ghost use Rattle.tenant_service.specs.History.{IsHistoryFor};
ghost use Rattle.tenant_service.specs.Served.{IsSound, LeavesSession, session};
ghost use Rattle.tenant_core.specs.tenant_state.specs.State.{TenantState};

use crate::stopping::Stopping;
use common_tests::rows::{CREATION_OF_A, IMPORT_BY_A, Mismatch, Row, calls_of, check_reply};
use std::alloc::{AllocError, Global};
use std::process::Abort;
use std::test::Fail;
use tenant_core::{Call, TenantStore};
use tenant_service::laws::memory_stores_are_honest;
use tenant_service::{MemoryStore, Service, SessionEnd};

/// The calls of the store in the first session: to load and to create; to load, to find the
/// receipt, and to commit.
const STORE_CALLS: u32 = 5;

const FIRST: &[Row] = &[CREATION_OF_A, IMPORT_BY_A];

const SUMMARY: Row = (
    "GET",
    "/t/a",
    "",
    200,
    "{\"devices\":0,\"epoch\":1,\"pools\":0,\"tenant\":\"a\",\"versions\":1}",
);

/// The reply to each creation where the tenant is there.
const EXISTS: Row = ("PUT", "/t/a", "", 409, "{\"error\":\"exists\"}");

const AGAIN: &[Row] = &[CREATION_OF_A, IMPORT_BY_A, SUMMARY];

const AGAIN_THERE: &[Row] = &[EXISTS, IMPORT_BY_A, SUMMARY];

const FAILED: Row = ("", "", "", 503, "{\"error\":\"store_failed\"}");

/// Serves one session over a disk that fails for good after `left` calls, and returns its end, and
/// the disk as a stop then leaves it.
fn one_session(
    alloc: Global,
    disk: MemoryStore,
    left: u32,
    is_late: bool,
    calls: &[Call],
) -> Result<(SessionEnd, MemoryStore), AllocError>
    ensures sound { IfOk result (λ r. IsSound (⟦<MemoryStore as TenantStore>⟧.has_state disk) calls.now r.0.replies.items r.0.doubt) }
    ensures crash { IfOk result (λ r. LeavesSession (⟦<MemoryStore as TenantStore>⟧.has_state disk) (Shows (⟦<MemoryStore as TenantStore>⟧.has_state r.1)) calls.now r.0.replies.items r.0.doubt) }
{
    let store = Stopping {
        disk,
        left,
        is_late,
        has_failed: false,
    };
    let mut service = Service::over(alloc, store)?;
    let end = service.run_session(calls)?;
    let Stopping { disk, .. } = service.into_store();
    Ok((end, disk))
}

/// Serves a first session over a new disk, which is stopped at the call `stop` of the store, and
/// one without a stop over the disk that it left: they are a history.
fn two_sessions(
    alloc: Global,
    stop: u32,
    is_late: bool,
    first: &[Call],
    second: &[Call],
) -> Result<(SessionEnd, SessionEnd), AllocError>
    ensures { IfOk result (λ r. (found : List ℕ → Option TenantState)
        × ((t : List ℕ) → IsHistoryFor t (session (λ _. None) first.now r.0.replies.items r.0.doubt) (session found second.now r.1.replies.items r.1.doubt ∷ []))) }
{
    memory_stores_are_honest();
    let (stopped, disk) = one_session(alloc, MemoryStore::new(alloc), stop, is_late, first)?;
    let (whole, _) = one_session(alloc, disk, u32::MAX, false, second)?;
    Ok((stopped, whole))
}

/// Asserts that a first session has the replies of its rows up to the doubt, and 503 from there on.
fn assert_silent_from(
    rt: &impl Abort,
    end: &SessionEnd,
    doubt: usize,
    rows: &[Row],
) -> Result<(), Mismatch> {
    assert_eq!(rt; end.replies.len(), rows.len());
    for (place, reply) in end.replies.iter().enumerate() {
        let row = if place < doubt { &rows[place] } else { &FAILED };
        check_reply(reply, row)?;
    }
    Ok(())
}

/// Returns the place of the call that is in doubt after a stop at the call `stop` of the store.
fn doubt_at(stop: u32) -> usize {
    if stop < 2 { 0 } else { 1 }
}

/// Asserts that a session without a stop has the replies of its rows.
fn assert_whole(rt: &impl Abort, end: &SessionEnd, rows: &[Row]) -> Result<(), Mismatch> {
    assert!(rt; end.doubt.is_none());
    assert_silent_from(rt, end, rows.len(), rows)
}

/// Asserts what is promised of a stop at the call `stop` of the store: the first session ends in a
/// doubt there; the calls that it acknowledged are kept; and those that are sent again act once.
fn assert_kept(rt: &impl Abort, alloc: Global, stop: u32, is_late: bool) -> Result<(), Mismatch> {
    let doubt = doubt_at(stop);
    let is_there = doubt == 1 || stop == 1 && is_late;
    let rows = if is_there { AGAIN_THERE } else { AGAIN };
    let (first, again) = (calls_of(alloc, FIRST)?, calls_of(alloc, rows)?);
    let (stopped, whole) = two_sessions(alloc, stop, is_late, &first, &again)?;
    assert!(rt; stopped.doubt == Some(doubt), "{stop}");
    assert_silent_from(rt, &stopped, doubt, FIRST)?;
    assert_whole(rt, &whole, rows)
}

#[test]
fn what_was_acknowledged_is_kept_and_what_is_repeated_acts_once(
    rt: HostRuntime,
) -> Result<(), Fail> {
    for stop in 0..STORE_CALLS {
        assert_kept(&rt, rt.alloc(), stop, false)?;
        assert_kept(&rt, rt.alloc(), stop, true)?;
    }
    Ok(())
}

#[test]
fn a_session_without_a_stop_has_no_doubt(rt: HostRuntime) -> Result<(), Fail> {
    let alloc = rt.alloc();
    let (first, again) = (calls_of(alloc, FIRST)?, calls_of(alloc, AGAIN_THERE)?);
    let (end, later) = two_sessions(alloc, STORE_CALLS, false, &first, &again)?;
    assert_whole(&rt, &end, FIRST)?;
    assert_whole(&rt, &later, AGAIN_THERE)?;
    Ok(())
}

/// A drop that meets a stop leaves the tenant whole, or absent; its number is then new.
const DROP: Row = ("DELETE", "/t/a", "", 200, "{\"dropped\":\"a\"}");

/// Asserts that after a drop that met a stop, before or after it was made, the requests of the
/// first session have the replies of `rows`.
fn assert_drop(
    rt: &impl Abort,
    alloc: Global,
    is_late: bool,
    rows: &[Row],
) -> Result<(), Mismatch> {
    let (first, dropped) = (calls_of(alloc, FIRST)?, calls_of(alloc, &[DROP])?);
    let (_, disk) = one_session(alloc, MemoryStore::new(alloc), u32::MAX, false, &first)?;
    let (end, disk) = one_session(alloc, disk, 1, is_late, &dropped)?;
    assert!(rt; end.doubt == Some(0));
    assert_silent_from(rt, &end, 0, &[DROP])?;
    let (end, _) = one_session(alloc, disk, u32::MAX, false, &calls_of(alloc, rows)?)?;
    assert_whole(rt, &end, rows)
}

#[test]
fn a_drop_that_is_cut_leaves_the_tenant_whole_or_absent(rt: HostRuntime) -> Result<(), Fail> {
    let alloc = rt.alloc();
    assert_drop(&rt, alloc, false, AGAIN_THERE)?;
    assert_drop(&rt, alloc, true, AGAIN)?;
    Ok(())
}

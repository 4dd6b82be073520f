//! A creation and an import, a drop, and an opening, stopped at each call on the log and on the
//! database file.

use crate::disks::{Disks, Stop, crashed, crashed_with, new_files};
use crate::session::{acknowledged, session};
use common_tests::rows::{CREATION_OF_A, IMPORT_BY_A, Row, calls_of, check_reply};
use std::alloc::Global;
use std::process::Abort;
use tenant_core::{Call, Reply};
use tenant_service::SessionEnd;

/// A number greater than that of the calls that a session makes on a disk.
const MANY: u64 = 2_000;

const FIRST: &[Row] = &[CREATION_OF_A, IMPORT_BY_A];

const SUMMARY: Row = (
    "GET",
    "/t/a",
    "",
    200,
    "{\"devices\":0,\"epoch\":1,\"pools\":0,\"tenant\":\"a\",\"versions\":1}",
);

/// The row that takes the place of a creation where the tenant is there.
const EXISTS: Row = ("PUT", "/t/a", "", 409, "{\"error\":\"exists\"}");

const AGAIN: &[Row] = &[CREATION_OF_A, IMPORT_BY_A, SUMMARY];

const AGAIN_THERE: &[Row] = &[EXISTS, IMPORT_BY_A, SUMMARY];

const DROP: &[Row] = &[("DELETE", "/t/a", "", 200, "{\"dropped\":\"a\"}")];

/// Returns whether `replies` are those of `rows`.
fn are_of_rows(replies: &[Reply], rows: &[Row]) -> bool {
    replies.len() == rows.len()
        && replies
            .iter()
            .zip(rows)
            .all(|(reply, row)| check_reply(reply, row).is_ok())
}

/// Makes the calls of `rows`.
fn calls(rt: &impl Abort, alloc: Global, rows: &[Row]) -> Vec<Call> {
    calls_of(alloc, rows).expect(rt, "no memory")
}

/// Returns whether the tenant was there, by the replies to the first requests, which were sent
/// again. `None`: the replies don't show that each request has acted once.
fn was_there(replies: &[Reply]) -> Option<bool> {
    if are_of_rows(replies, AGAIN_THERE) {
        Some(true)
    } else if are_of_rows(replies, AGAIN) {
        Some(false)
    } else {
        None
    }
}

/// Sends the first requests again, in a session without a stop over what a crash left. Asserts that
/// each of them has then acted once, and that the tenant was there or wasn't, as it may be.
fn assert_found(
    rt: &impl Abort,
    alloc: Global,
    files: Disks,
    may_be_there: bool,
    may_be_absent: bool,
) {
    let again = calls(rt, alloc, AGAIN);
    let (end, _) = session(rt, alloc, crashed(files), &again, false);
    let holds = match end.and_then(|end| was_there(&end.replies)) {
        Some(true) => may_be_there,
        Some(false) => may_be_absent,
        None => false,
    };
    assert!(rt; holds);
}

/// Makes a creation and an import over new files that fail as `stop` says, and then the same again.
/// Returns whether the first session met no stop.
fn creates(rt: &impl Abort, alloc: Global, stop: Stop) -> bool {
    let first = calls(rt, alloc, FIRST);
    let (end, files) = session(rt, alloc, new_files(alloc, stop), &first, false);
    let done = match end {
        Some(end) => acknowledged(&end.replies),
        None => 0,
    };
    assert_found(rt, alloc, files, true, done == 0);
    done == FIRST.len()
}

/// Makes the files that a crash leaves after a session without a stop, with what it wrote in the
/// log. One of them then fails as `stop` says.
fn files_of_a(rt: &impl Abort, alloc: Global, stop: Stop) -> Disks {
    let files = new_files(alloc, Stop::Log(u64::MAX));
    let first = calls(rt, alloc, FIRST);
    let (_, files) = session(rt, alloc, files, &first, false);
    crashed_with(rt, alloc, files, stop)
}

/// Makes a drop over files that fail as `stop` says, and returns whether it met no stop. Afterwards
/// the tenant is there whole, or it isn't there and comes back as a new one.
fn drops(rt: &impl Abort, alloc: Global, stop: Stop) -> bool {
    let files = files_of_a(rt, alloc, stop);
    let (end, files) = session(rt, alloc, files, &calls(rt, alloc, DROP), false);
    let is_dropped = end.is_some_and(|end| are_of_rows(&end.replies, DROP));
    assert_found(rt, alloc, files, !is_dropped, true);
    is_dropped
}

/// Makes an opening of files that fail as `stop` says, and whose log has to be taken in, and
/// returns whether it met no stop. All that was acknowledged is there afterwards.
fn opens(rt: &impl Abort, alloc: Global, stop: Stop) -> bool {
    let files = files_of_a(rt, alloc, stop);
    let (end, files) = session(rt, alloc, files, &[], false);
    assert_found(rt, alloc, files, true, false);
    end.is_some()
}

/// The work that is stopped.
#[derive(Clone, Copy)]
enum Work {
    Creation,
    Drop,
    Opening,
}

/// Does `work` over files that fail as `stop` says, and returns whether it met no stop.
fn is_whole(rt: &impl Abort, alloc: Global, work: Work, stop: Stop) -> bool {
    match work {
        Work::Creation => creates(rt, alloc, stop),
        Work::Drop => drops(rt, alloc, stop),
        Work::Opening => opens(rt, alloc, stop),
    }
}

/// Asserts that `work` meets no stop once enough calls on the log are let through, and that it
/// makes some.
fn assert_on_log(rt: &impl Abort, alloc: Global, work: Work) {
    let mut whole = 0;
    for calls in 0..MANY {
        if is_whole(rt, alloc, work, Stop::Log(calls)) {
            whole = calls;
            break;
        }
    }
    assert!(rt; whole > 0);
}

/// Asserts the same of calls on the database file, of which `work` may make none.
fn assert_on_database(rt: &impl Abort, alloc: Global, work: Work) {
    let mut met_none = false;
    for calls in 0..MANY {
        if is_whole(rt, alloc, work, Stop::Database(calls)) {
            met_none = true;
            break;
        }
    }
    assert!(rt; met_none);
}

/// The stops are tried in turn until a session meets none.
#[test]
fn a_creation_and_an_import_are_kept_once_they_are_acknowledged(rt: HostRuntime) {
    assert_on_log(&rt, rt.alloc(), Work::Creation);
    assert_on_database(&rt, rt.alloc(), Work::Creation);
}

#[test]
fn a_drop_leaves_the_tenant_whole_or_absent(rt: HostRuntime) {
    assert_on_log(&rt, rt.alloc(), Work::Drop);
    assert_on_database(&rt, rt.alloc(), Work::Drop);
}

#[test]
fn an_opening_that_takes_in_a_log_loses_nothing(rt: HostRuntime) {
    assert_on_log(&rt, rt.alloc(), Work::Opening);
    assert_on_database(&rt, rt.alloc(), Work::Opening);
}

//! Sessions one after another over the same files, each stopped at a random call. What they
//! acknowledge is compared with a service in memory that serves the same calls alone.

use crate::disks::{Disks, Stop, crashed_with, new_files};
use crate::session::{acknowledged, session};
use common_tests::imports::{FIRST, OTHER, SECOND};
use crush_map::Text;
use std::alloc::Global;
use std::process::Abort;
use tenant_core::{Bytes, Call, Reply};
use tenant_service::{MemoryStore, Service, SessionEnd};

/// The number of sessions that are opened. At most `TRIES` are tried for that.
const SESSIONS: u64 = 50;

const TRIES: u64 = 500;

/// The number of calls that each session has, beside a repeated one.
const CALLS: u64 = 200;

/// The paths of the tenants.
const TENANTS: &[&str; 5] = &["/t/a", "/t/b", "/t/c", "/t/d", "/t/e"];

/// A method, a path that follows the tenant's, and a body.
type Asked = (&'static str, &'static str, &'static str);

/// The body that adds a pool of eight groups.
const POOL: &str =
    "{\"request\":\"p1\",\"id\":1,\"name\":\"p\",\"kind\":\"replicated\",\"size\":1,\"rule\":0,\"pg_num\":8,\"pgp_num\":8,\"hashpspool\":true}";

/// The calls that are drawn, beside changes of devices with a number of their own.
const ASKED: &[Asked; 12] = &[
    ("PUT", "", ""),
    ("PUT", "", ""),
    ("DELETE", "", ""),
    ("POST", "/maps", FIRST),
    ("POST", "/maps", SECOND),
    ("POST", "/maps", OTHER),
    ("POST", "/pools", POOL),
    ("POST", "/pools/remove", "{\"request\":\"r1\",\"id\":1}"),
    ("GET", "", ""),
    ("GET", "/maps/2", ""),
    ("GET", "/pools/1/groups/0", ""),
    ("GET", "/pools/1/usage", ""),
];

/// Returns the next number of the sequence that `seed` begins, and moves `seed` on.
fn next(seed: &mut u64) -> u64 {
    *seed = seed
        .wrapping_mul(6_364_136_223_846_793_005)
        .wrapping_add(1_442_695_040_888_963_407);
    *seed >> 33
}

fn call(rt: &impl Abort, alloc: Global, method: &[u8], path: &str, body: &[u8]) -> Call {
    Call {
        method: Bytes::new(Vec::from_slice(alloc, method).expect(rt, "no memory")),
        path: Text::copy(alloc, path).expect(rt, "no memory"),
        body: Bytes::new(Vec::from_slice(alloc, body).expect(rt, "no memory")),
    }
}

/// Makes the body of a change of device 0, as JSON, with the request number d`number`.
fn as_json(rt: &impl Abort, alloc: Global, number: u64, weight: u64) -> String {
    format!(in alloc;
        "{{\"request\":\"d{number}\",\"devices\":[{{\"id\":0,\"reweight\":{weight}}}]}}"
    ).expect(rt, "no memory")
}

/// Makes the body of a change of device 0, as CSV, with the request number c`number`.
fn as_csv(rt: &impl Abort, alloc: Global, number: u64, weight: u64) -> String {
    format!(in alloc;
        "{{\"request\":\"c{number}\",\"csv\":\"id,reweight,up\\n0,{weight},1\\n\"}}"
    ).expect(rt, "no memory")
}

/// Makes the path of `tenant` that ends with `rest`.
fn path_of(rt: &impl Abort, alloc: Global, tenant: &str, rest: &str) -> String {
    format!(in alloc; "{tenant}{rest}").expect(rt, "no memory")
}

/// Draws a change of device 0, as JSON or as CSV, with one of a hundred request numbers of its
/// kind.
fn drawn_change(rt: &impl Abort, alloc: Global, tenant: &str, seed: &mut u64) -> Call {
    let (number, weight) = (next(seed) % 100, next(seed) % 65_537);
    let (rest, body) = if next(seed) % 2 == 0 {
        ("/devices", as_json(rt, alloc, number, weight))
    } else {
        ("/devices/csv", as_csv(rt, alloc, number, weight))
    };
    let path = path_of(rt, alloc, tenant, rest);
    call(rt, alloc, b"POST", path.as_str(), body.as_bytes())
}

/// Draws the path of a tenant.
fn drawn_tenant(seed: &mut u64) -> &'static str {
    TENANTS[(next(seed) % 5) as usize]
}

/// Draws one of the calls of `ASKED`.
fn drawn_asked(seed: &mut u64) -> Asked {
    ASKED[(next(seed) % 12) as usize]
}

fn drawn_call(rt: &impl Abort, alloc: Global, seed: &mut u64) -> Call {
    let tenant = drawn_tenant(seed);
    if next(seed) % 3 == 0 {
        return drawn_change(rt, alloc, tenant, seed);
    }
    let (method, path, body) = drawn_asked(seed);
    let path = path_of(rt, alloc, tenant, path);
    call(rt, alloc, method.as_bytes(), path.as_str(), body.as_bytes())
}

/// Makes the same call once more.
fn again(rt: &impl Abort, alloc: Global, first: &Call) -> Call {
    let it = first.parts();
    call(rt, alloc, it.method, it.path, it.body)
}

/// Makes the calls of a session: the call in doubt, if there is one, and drawn ones.
fn drawn_calls(rt: &impl Abort, alloc: Global, doubt: &Option<Call>, seed: &mut u64) -> Vec<Call> {
    let mut calls = Vec::new(alloc);
    if let Some(first) = doubt {
        calls.push(again(rt, alloc, first)).expect(rt, "no memory");
    }
    for _ in 0..CALLS {
        calls
            .push(drawn_call(rt, alloc, seed))
            .expect(rt, "no memory");
    }
    calls
}

/// Draws the call on the log or on the database file at which the next session stops.
fn drawn_stop(seed: &mut u64) -> Stop {
    if next(seed) % 4 == 0 {
        Stop::Database(next(seed) % 200)
    } else {
        Stop::Log(next(seed) % 1_000)
    }
}

/// Returns whether `alone`, the service in memory, answers the call with `reply`.
fn has_reply(alone: &mut Service<MemoryStore>, call: &Call, reply: &Reply) -> bool {
    let own = alone.request(call.parts());
    own.status == reply.status && own.body.as_str() == reply.body.as_str()
}

/// Returns whether `alone` gives the call the reply that it has, if that acknowledges it. A call
/// that was in doubt may be asked twice: it was done before, or is done now.
fn is_explained(
    alone: &mut Service<MemoryStore>,
    call: &Call,
    reply: &Reply,
    was_in_doubt: bool,
) -> bool {
    reply.status == 503
        || has_reply(alone, call, reply)
        || (was_in_doubt && has_reply(alone, call, reply))
}

/// Returns whether `alone` gives each acknowledged call the reply that it has in `replies`. The
/// first call may be one that was in doubt.
fn are_explained(
    alone: &mut Service<MemoryStore>,
    calls: &[Call],
    replies: &[Reply],
    has_doubt: bool,
) -> bool {
    let mut is_first = has_doubt;
    let mut all = true;
    for (call, reply) in calls.iter().zip(replies) {
        all = all && is_explained(alone, call, reply, is_first);
        is_first = false;
    }
    all
}

/// Returns the call at which the session stopped, which is in doubt, or `None`.
fn in_doubt(rt: &impl Abort, alloc: Global, calls: &[Call], end: &SessionEnd) -> Option<Call> {
    match end.doubt.and_then(|place| calls.get(place)) {
        Some(it) => Some(again(rt, alloc, it)),
        None => None,
    }
}

/// What passes from one session to the next beside the files: the call in doubt, and the seed. It
/// counts the sessions that were opened, those of them that stopped amid their calls, the sessions
/// that weren't opened, and the calls that were acknowledged.
#[derive(Drop)]
struct Course {
    doubt: Option<Call>,
    seed: u64,
    opened: u64,
    stopped: u64,
    unopened: u64,
    acknowledged: u64,
}

/// Asserts that what a session acknowledged is explained, and counts the session and its calls.
fn count(
    rt: &impl Abort,
    alloc: Global,
    alone: &mut Service<MemoryStore>,
    course: &mut Course,
    calls: &[Call],
    end: &SessionEnd,
) {
    assert!(rt; are_explained(alone, calls, &end.replies, course.doubt.is_some()));
    course.doubt = in_doubt(rt, alloc, calls, end);
    let count = acknowledged(&end.replies) as u64;
    course.opened = course.opened.saturating_add(1);
    course.stopped = course
        .stopped
        .saturating_add(u64::from(course.doubt.is_some()));
    course.acknowledged = course.acknowledged.saturating_add(count);
}

/// Runs one more session over the files as a crash leaves them, and gives the files back.
fn next_session(
    rt: &impl Abort,
    alloc: Global,
    alone: &mut Service<MemoryStore>,
    files: Disks,
    course: &mut Course,
) -> Disks {
    let calls = drawn_calls(rt, alloc, &course.doubt, &mut course.seed);
    let files = crashed_with(rt, alloc, files, drawn_stop(&mut course.seed));
    // a file is closed after half of the sessions, so that the next log is short
    let closes = next(&mut course.seed) % 2 == 0;
    let (end, files) = session(rt, alloc, files, &calls, closes);
    match end {
        Some(end) => count(rt, alloc, alone, course, &calls, &end),
        None => course.unopened = course.unopened.saturating_add(1),
    }
    files
}

/// Runs sessions one after the other, until `SESSIONS` of them were opened or `TRIES` were tried.
fn follow(rt: &impl Abort, alloc: Global, alone: &mut Service<MemoryStore>, course: &mut Course) {
    let mut files = new_files(alloc, Stop::Log(u64::MAX));
    for _ in 0..TRIES {
        if course.opened < SESSIONS {
            files = next_session(rt, alloc, alone, files, course);
        }
    }
}

/// Asserts that all sessions were opened, and that enough of them stopped, weren't opened, and
/// acknowledged calls.
fn assert_enough(rt: &impl Abort, course: &Course) {
    let (opened, stopped) = (course.opened, course.stopped);
    let (unopened, acknowledged) = (course.unopened, course.acknowledged);
    assert!(rt;
        opened == SESSIONS && stopped >= 5 && unopened >= 5 && acknowledged > 1_000,
        "{opened} opened, {stopped} stopped, {unopened} not opened, {acknowledged} acknowledged"
    );
}

#[test]
fn what_each_session_acknowledges_is_found_by_the_later_ones(rt: HostRuntime) {
    let mut alone = Service::in_memory(rt.alloc()).expect(&rt, "no memory");
    let mut course = Course {
        doubt: None,
        seed: 1,
        opened: 0,
        stopped: 0,
        unopened: 0,
        acknowledged: 0,
    };
    follow(&rt, rt.alloc(), &mut alone, &mut course);
    assert_enough(&rt, &course);
}

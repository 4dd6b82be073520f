//! Calls of `crush_http` and `crush_app`.

ghost use Rattle.std.specs.Prelude.{◌≡◌, false, IsTrue};
ghost use Rattle.sqlite.specs.Held.{state};
ghost use Rattle.sqlite.specs.State.{HasCleanDisk};

use crate::same::assert_same;
use common_tests::rows::{CREATION_OF_A, IMPORT_BY_A, Row, calls_of, check_reply};
use common_tests::streams::{Cuts, MANY, Reader, Writer};
use crush_app::{CheckEnd, ScriptEnd, check_run, script_run};
use crush_http::{
    Bytes, Call, CallParts, ConnectionEnd, MemoryStore, Reply, Service, SessionEnd, laws, serve,
};
use sqlite::{Alter, Connection};
use std::alloc::Global;
use std::num::NonZeroUsize;
use std::test::Fail;
use table_service::{close_service, open_service};
use tenant_core::TenantStore;
use text_tests::texts::DEVICE_0;

/// The row that shows the tenant after the import.
const SUMMARY: Row = (
    "GET",
    "/t/a",
    "",
    200,
    "{\"devices\":0,\"epoch\":1,\"pools\":0,\"tenant\":\"a\",\"versions\":1}",
);

/// The requests to a new service.
const ROWS: &[Row] = &[CREATION_OF_A, IMPORT_BY_A, SUMMARY];

/// Returns whether the method of a call is `PUT`.
fn is_put(call: &Call) -> bool {
    let method: &Bytes = &call.method;
    method.as_slice() == b"PUT".as_slice()
}

/// Returns whether `replies` are those of the rows.
fn are_of_rows(replies: &[Reply]) -> bool {
    replies.len() == ROWS.len()
        && replies
            .iter()
            .zip(ROWS)
            .all(|(reply, row)| check_reply(reply, row).is_ok())
}

#[test]
fn services_have_their_calls(rt: HostRuntime) -> Result<(), Fail> {
    let alloc = rt.alloc();
    laws::history();
    let calls: Vec<Call> = calls_of(alloc, ROWS)?;
    assert!(rt; matches!(calls.as_slice().first(), Some(call) if is_put(call)));
    let mut service: Service<MemoryStore> = Service::in_memory(alloc)?;
    let replies = service.run(&calls)?;
    assert!(rt; are_of_rows(&replies));
    assert!(rt; !service.is_latched());
    Ok(())
}

#[test]
fn sessions_have_their_call(rt: HostRuntime) -> Result<(), Fail> {
    let alloc = rt.alloc();
    let calls: Vec<Call> = calls_of(alloc, ROWS)?;
    let mut service: Service<MemoryStore> = Service::in_memory(alloc)?;
    assert!(rt; !service.is_latched());
    let end: SessionEnd = service.run_session(&calls)?;
    assert!(rt; are_of_rows(&end.replies) && end.doubt.is_none());
    Ok(())
}

/// Serves the requests, and returns whether the replies are those of the rows.
fn are_served<T: TenantStore>(service: &mut Service<T>) -> bool {
    for row in ROWS {
        let (method, path, body, _, _) = *row;
        let reply = service.request(CallParts {
            method: method.as_bytes(),
            path,
            body: body.as_bytes(),
        });
        if check_reply(&reply, row).is_err() {
            return false;
        }
    }
    true
}

/// Opens a service over the tables of a connection, serves the requests, and closes it. Returns
/// whether the replies are those of the rows, and the connection. `None`: the service isn't opened.
fn closed_after<S: Alter + Drop>(
    alloc: Global,
    conn: Connection<S>,
) -> Option<(bool, Connection<S>)>
    requires autocommit { conn.in_transaction ≡ false }
    requires open { HasCleanDisk (state S.Store conn) → IsTrue (state S.Store conn).is_open }
    requires settled { HasCleanDisk (state S.Store conn) → (state S.Store conn).now ≡ (state S.Store conn).committed }
{
    match open_service::<_, tenant_cache::ByteBound<1_000_000>>(alloc, conn, NonZeroUsize::MIN) {
        Ok(mut service) => {
            let served = are_served(&mut service);
            Some((served, close_service(service)))
        }
        Err(_) => None,
    }
}

/// What a service over tables did is in the tables after it is closed.
#[test]
fn services_are_opened_and_closed(rt: HostRuntime) -> Result<(), Fail> {
    let alloc = rt.alloc();
    let Some((served, mut conn)) = closed_after(alloc, Connection::open_in_memory(alloc)?) else {
        return Err(Fail::new("the service isn't opened"));
    };
    assert!(rt; served);
    let found = conn.query_all("SELECT version FROM maps", &[]);
    assert!(rt; matches!(&found, Ok(rows) if rows.len() == 1));
    Ok(())
}

/// Makes a reader of `rest`, which gives at most 7 bytes a read.
fn reader_of(rest: &[u8]) -> Reader<'_> {
    Reader {
        rest,
        cuts: Cuts::each(7),
        reads: MANY,
        interrupts: 0,
    }
}

/// Two messages, and a third that ends in its body; below it the replies to the two.
const STREAM: &[u8] =
    b"PUT /t/a HTTP/1.1\r\nHost: l\r\n\r\nGET /t/a HTTP/1.1\r\nHost: l\r\n\r\nPOST /t/a/test HTTP/1.1\r\nContent-Length: 30\r\n\r\n{\"ru";

const REPLIES: &[u8] =
    b"HTTP/1.1 201 Created\r\nContent-Length: 24\r\nContent-Type: application/json\r\n\r\n{\"epoch\":0,\"tenant\":\"a\"}HTTP/1.1 200 OK\r\nContent-Length: 59\r\nContent-Type: application/json\r\n\r\n{\"devices\":0,\"epoch\":0,\"pools\":0,\"tenant\":\"a\",\"versions\":0}";

#[test]
fn connections_have_their_call(rt: HostRuntime) -> Result<(), Fail> {
    let alloc = rt.alloc();
    let mut service = Service::in_memory(alloc)?;
    let mut writer = Writer::new(alloc, MANY);
    let ended = serve(alloc, &mut service, &mut reader_of(STREAM), &mut writer)?;
    assert_same(&rt, &ended, &ConnectionEnd::Closed);
    assert!(rt; writer.taken.as_slice() == REPLIES);
    Ok(())
}

#[test]
fn scripts_have_their_call(rt: HostRuntime) -> Result<(), Fail> {
    let alloc = rt.alloc();
    let mut service = Service::in_memory(alloc)?;
    assert!(rt; !service.is_latched());
    let mut writer = Writer::new(alloc, MANY);
    let script = b"PUT /t/a\nGET /t/a\n";
    let end = script_run(alloc, &mut service, &mut reader_of(script), &mut writer)?;
    assert_same(&rt, &end, &ScriptEnd::Done);
    assert!(rt;
        writer.taken.as_slice()
            == b"201 {\"epoch\":0,\"tenant\":\"a\"}\n200 {\"devices\":0,\"epoch\":0,\"pools\":0,\"tenant\":\"a\",\"versions\":0}\n".as_slice()
    );
    Ok(())
}

#[test]
fn checks_of_texts_have_their_call(rt: HostRuntime) -> Result<(), Fail> {
    let alloc = rt.alloc();
    let mut writer = Writer::new(alloc, MANY);
    let end = check_run(alloc, &mut reader_of(DEVICE_0.as_bytes()), &mut writer)?;
    assert_same(&rt, &end, &CheckEnd::Accepted);
    assert!(rt; writer.taken.as_slice() == b"ok devices 1 buckets 1 rules 1\n".as_slice());
    Ok(())
}

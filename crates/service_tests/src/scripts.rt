//! Scripts and runs on the service over a store in memory.

ghost use Rattle.std.specs.Prelude.{◌≡◌, false};

use crate::same::assert_same;
use common_tests::rows::{CREATION_OF_A, Row, check_run};
use common_tests::streams::{Cuts, MANY, Reader, Writer};
use crush_app::{ScriptEnd, script_in_memory, script_run};
use std::alloc::Global;
use std::io::{Read, Write};
use std::num::NonZeroUsize;
use std::process::Abort;
use std::test::Fail;
use tenant_core::TenantStore;
use tenant_service::{MemoryStore, Service};

const SCRIPT: &str =
    "PUT /t/a\nPOST /t/a/pick {\"bucket\":{\"id\":-1,\"items\":[{\"item\":4,\"weight\":0},{\"item\":9,\"weight\":65536}],\"kind\":\"list\"},\"r\":0,\"x\":5}\r\nGET\n\nGET /t/a\nPUT /t/a\nDELETE /t/a\nGET /t/a";

pub(crate) const REPLIES: &str =
    "201 {\"epoch\":0,\"tenant\":\"a\"}\n200 {\"item\":9}\n400 {\"error\":\"bad_request\"}\n200 {\"devices\":0,\"epoch\":0,\"pools\":0,\"tenant\":\"a\",\"versions\":0}\n409 {\"error\":\"exists\"}\n200 {\"dropped\":\"a\"}\n404 {\"error\":\"no_tenant\"}\n";

/// Makes a service over a new store in memory.
pub(crate) fn new_service(rt: &impl Abort, alloc: Global) -> Service<MemoryStore> {
    Service::in_memory(alloc).expect(rt, "no memory")
}

/// Plays a script as `script_run` does, whose contract is long: each proof of a caller has it with
/// the caller's types, and this function has none.
pub(crate) fn end_of<T: TenantStore, R: Read, W: Write>(
    rt: &impl Abort,
    alloc: Global,
    service: &mut Service<T>,
    reader: &mut R,
    writer: &mut W,
) -> ScriptEnd
    requires { T.latched service.old ≡ false }
{
    script_run(alloc, service, reader, writer).expect(rt, "no memory")
}

/// Plays the script with a reader and a writer that fail after `reads` reads and `writes` writes.
/// Returns how it ends, and the bytes that were written.
pub(crate) fn play(
    rt: &impl Abort,
    alloc: Global,
    reads: usize,
    writes: usize,
) -> (ScriptEnd, Vec<u8>) {
    let mut service = new_service(rt, alloc);
    let mut reader = Reader {
        rest: SCRIPT.as_bytes(),
        cuts: Cuts::each(1),
        reads,
        interrupts: 0,
    };
    let mut writer = Writer::new(alloc, writes);
    let end = end_of(rt, alloc, &mut service, &mut reader, &mut writer);
    let Writer { taken, writes: _ } = writer;
    (end, taken)
}

#[test]
fn a_script_is_played_whatever_one_read_and_one_write_take(rt: HostRuntime) {
    let (end, written) = play(&rt, rt.alloc(), MANY, MANY);
    assert_same(&rt, &end, &ScriptEnd::Done);
    assert_same(&rt, &written.as_slice(), &REPLIES.as_bytes());
}

#[test]
fn a_script_is_played_in_memory_from_nothing(rt: HostRuntime) {
    let mut reader = Reader {
        rest: SCRIPT.as_bytes(),
        cuts: Cuts::each(1),
        reads: MANY,
        interrupts: 0,
    };
    let mut writer = Writer::new(rt.alloc(), MANY);
    let end = script_in_memory(rt.alloc(), NonZeroUsize::MIN, &mut reader, &mut writer).expect(
        &rt,
        "no memory",
    );
    assert_same(&rt, &end, &ScriptEnd::Done);
    assert_same(&rt, &writer.taken.as_slice(), &REPLIES.as_bytes());
}

/// Each read that a signal interrupts is made again, so that the script is played whole.
#[test]
fn an_interrupted_read_is_made_again(rt: HostRuntime) {
    let mut service = new_service(&rt, rt.alloc());
    let mut reader = Reader {
        rest: SCRIPT.as_bytes(),
        cuts: Cuts::each(1),
        reads: MANY,
        interrupts: 20,
    };
    let mut writer = Writer::new(rt.alloc(), MANY);
    let end = end_of(&rt, rt.alloc(), &mut service, &mut reader, &mut writer);
    assert_same(&rt, &end, &ScriptEnd::Done);
    assert_same(&rt, &writer.taken.as_slice(), &REPLIES.as_bytes());
}

const CREATION_OF_B: Row = ("PUT", "/t/b", "", 201, "{\"epoch\":0,\"tenant\":\"b\"}");

const FRESH_B: Row = (
    "GET",
    "/t/b",
    "",
    200,
    "{\"devices\":0,\"epoch\":0,\"pools\":0,\"tenant\":\"b\",\"versions\":0}",
);

/// Calls of two tenants, and others.
const TWO_TENANTS: [Row; 9] = [
    CREATION_OF_A,
    CREATION_OF_B,
    ("DELETE", "/t/a", "", 200, "{\"dropped\":\"a\"}"),
    ("GET", "/t/a", "", 404, "{\"error\":\"no_tenant\"}"),
    FRESH_B,
    ("PUT", "/t/b", "", 409, "{\"error\":\"exists\"}"),
    ("GET", "/x", "", 404, "{\"error\":\"no_path\"}"),
    ("POST", "/t/b", "", 405, "{\"error\":\"method\"}"),
    ("PUT", "/t/b!", "", 400, "{\"error\":\"bad_request\"}"),
];

#[test]
fn a_run_answers_each_tenant_from_its_own_state(rt: HostRuntime) -> Result<(), Fail> {
    check_run(rt.alloc(), &TWO_TENANTS)?;
    Ok(())
}

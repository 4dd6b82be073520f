//! What a service answers once its store has failed for good.

use crate::fixed::over_fixed;
use crate::same::assert_same;
use crate::scripts::end_of;
use common_tests::rows::{Row, check_requests};
use crush_app::ScriptEnd;
use std::test::Fail;

/// The fourth call that reaches the store is its last one. From then on every call is answered 503,
/// also a call of no tenant.
const ROWS: &[Row] = &[
    (
        "GET",
        "/t/b",
        "",
        200,
        "{\"devices\":0,\"epoch\":0,\"pools\":0,\"tenant\":\"b\",\"versions\":0}",
    ),
    ("GET", "/t/a", "", 404, "{\"error\":\"no_tenant\"}"),
    ("PUT", "/t/a", "", 503, "{\"error\":\"store_failed\"}"),
    ("GET", "/x/d", "", 404, "{\"error\":\"no_path\"}"),
    ("GET", "/t/a", "", 503, "{\"error\":\"store_failed\"}"),
    ("GET", "/t/a", "", 503, "{\"error\":\"store_failed\"}"),
    ("GET", "/x/d", "", 503, "{\"error\":\"store_failed\"}"),
    ("POST", "/t/d", "", 503, "{\"error\":\"store_failed\"}"),
    ("PUT", "/t/!", "", 503, "{\"error\":\"store_failed\"}"),
];

#[test]
fn a_latched_service_answers_503_to_every_call(rt: HostRuntime) -> Result<(), Fail> {
    let mut service = over_fixed(rt.alloc(), 3)?;
    assert!(rt; !service.is_latched());
    check_requests(&mut service, ROWS)?;
    assert!(rt; service.is_latched());
    Ok(())
}

/// The reply of the call that met the fault is written, and no later line is served.
#[test]
fn a_script_ends_at_the_reply_that_latched(rt: HostRuntime) -> Result<(), Fail> {
    let alloc = rt.alloc();
    let mut service = over_fixed(alloc, 1)?;
    let mut input = b"GET /t/a\n\nGET /t/a\nGET /t/a\n".as_slice();
    let mut written = Vec::new(alloc);
    let end = end_of(&rt, alloc, &mut service, &mut input, &mut written);
    assert!(rt; end == ScriptEnd::Latched);
    assert_same(
        &rt,
        &written.as_slice(),
        &b"404 {\"error\":\"no_tenant\"}\n503 {\"error\":\"store_failed\"}\n".as_slice(),
    );
    Ok(())
}

//! What a service answers where the data of some names is damaged.

use crate::fixed::over_fixed;
use common_tests::imports::FIRST;
use common_tests::rows::{Row, check_requests};
use std::test::Fail;

/// An import of a text without a word, which is refused where a tenant is there.
const IMPORT: &str = "{\"request\":\"m1\",\"text\":\"\"}";

const RULE_TEST: &str = "{\"rule\":0,\"size\":1,\"x\":0}";

/// Calls of tenants whose data is damaged, and of others.
const ROWS: &[Row] = &[
    ("GET", "/t/d", "", 500, "{\"error\":\"store_damaged\"}"),
    ("PUT", "/t/da", "", 500, "{\"error\":\"store_damaged\"}"),
    ("DELETE", "/t/d", "", 500, "{\"error\":\"store_damaged\"}"),
    (
        "POST",
        "/t/d/maps",
        IMPORT,
        500,
        "{\"error\":\"store_damaged\"}",
    ),
    (
        "POST",
        "/t/d/test",
        RULE_TEST,
        500,
        "{\"error\":\"store_damaged\"}",
    ),
    (
        "GET",
        "/t/d/maps/1",
        "",
        500,
        "{\"error\":\"store_damaged\"}",
    ),
    ("GET", "/t/d/maps/x", "", 400, "{\"error\":\"bad_request\"}"),
    (
        "POST",
        "/t/d/maps",
        "{}",
        400,
        "{\"error\":\"bad_request\"}",
    ),
    (
        "POST",
        "/t/b/maps",
        IMPORT,
        422,
        "{\"error\":\"map_refused\",\"fault\":\"M4\",\"line\":1}",
    ),
    (
        "POST",
        "/t/b/maps",
        FIRST,
        503,
        "{\"error\":\"store_failed\"}",
    ),
    (
        "GET",
        "/t/b",
        "",
        200,
        "{\"devices\":0,\"epoch\":0,\"pools\":0,\"tenant\":\"b\",\"versions\":0}",
    ),
    (
        "POST",
        "/t/b/test",
        RULE_TEST,
        404,
        "{\"error\":\"no_version\"}",
    ),
    (
        "POST",
        "/t/a/test",
        RULE_TEST,
        404,
        "{\"error\":\"no_tenant\"}",
    ),
    ("GET", "/t/d!", "", 400, "{\"error\":\"bad_request\"}"),
    ("POST", "/t/d", "", 405, "{\"error\":\"method\"}"),
    ("GET", "/x/d", "", 404, "{\"error\":\"no_path\"}"),
    ("GET", "/t/a", "", 404, "{\"error\":\"no_tenant\"}"),
    ("DELETE", "/t/a", "", 404, "{\"error\":\"no_tenant\"}"),
    ("PUT", "/t/a", "", 503, "{\"error\":\"store_failed\"}"),
    ("PUT", "/t/b", "", 409, "{\"error\":\"exists\"}"),
    ("DELETE", "/t/b", "", 503, "{\"error\":\"store_failed\"}"),
];

#[test]
fn a_damaged_tenant_is_answered_500_and_others_as_ever(rt: HostRuntime) -> Result<(), Fail> {
    let mut service = over_fixed(rt.alloc(), u32::MAX)?;
    check_requests(&mut service, ROWS)?;
    Ok(())
}

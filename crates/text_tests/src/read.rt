//! Texts as maps, and their first faults.

use crate::jewel::{CANONICAL, TWO_DEVICES, assert_canonical};
use crate::lines::{lines_within, with_line};
use crate::same::{assert_same, assert_same_in};
use FaultCode::{M1, M2, M3, M4, M5, M6, M7, M8, M9, M10, M11, M12, M13, M14, M15};
use TextCode::{Map, X1, X2, X3, X4, X5, X6, X7};
use crush_map::FaultCode;
use crush_text::{TextCode, read_map, read_stored};
use std::alloc::Global;
use std::process::Abort;
use std::test::Fail;

/// Finds the first fault of a text that may be imported, by line and code.
fn fault(alloc: Global, text: &[u8]) -> Result<Option<(usize, TextCode)>, Fail> {
    match read_map(alloc, text)? {
        Ok(_) => Ok(None),
        Err(fault) => Ok(Some((fault.line, fault.code))),
    }
}

/// A text, and its first fault by line and code.
type Row = (&'static str, usize, TextCode);

fn assert_faults(rt: &impl Abort, alloc: Global, rows: &[Row]) -> Result<(), Fail> {
    for (text, line, code) in rows {
        let expected = Some((*line, *code));
        assert_same_in(rt, text, &fault(alloc, text.as_bytes())?, &expected);
    }
    Ok(())
}

/// Faults of form.
const OF_FORM: &[Row] = &[
    ("device 0", 1, X1),
    ("root default\n id -1", 2, X1),
    ("root default {\n id -1\n alg straw2", 3, X2),
    (
        "rule data {\n id 0\n type replicated\n step take default class",
        4,
        X3,
    ),
    ("choose_args", 1, X4),
    (
        "root default {\n id -1\n alg list\n item osd.0 pos 1\n}",
        4,
        X5,
    ),
    (
        "root default {\n id -1\n alg list\n item osd.0 weight 65536",
        4,
        X6,
    ),
    // bytes that are no blanks here
    ("device\x0c0 a", 1, X1),
    ("device\x0b0 a", 1, X1),
    ("device\x000 a", 1, X1),
    // at most one min_size, and behind it at most one max_size
    (
        "rule q { id 0 type erasure max_size 3 min_size 1 step emit }",
        1,
        X1,
    ),
    (
        "rule q { id 0 type erasure min_size 1 min_size 1 step emit }",
        1,
        X1,
    ),
    (
        "rule q { id 0 type erasure\nmax_size 1\nmax_size 1\nstep emit }",
        3,
        X1,
    ),
    ("rule q { id 0 type erasure\nstep take r\nclass ssd", 3, X3),
    // a place is compared as a whole number, and its line is that of the number
    (
        "root default {\n id -1\n alg list\n item osd.0 pos 4294967296\n}",
        4,
        X5,
    ),
    (
        "root default {\n id -1\n alg list\n item b pos 1\n item a pos\n 1\n}",
        6,
        X5,
    ),
    (
        "root default {\n id -1\n alg list\n item b pos 1\n item a\n pos\n 1\n}",
        7,
        X5,
    ),
];

#[test]
fn each_fault_of_form_has_its_code(rt: HostRuntime) -> Result<(), Fail> {
    assert_faults(&rt, rt.alloc(), OF_FORM)
}

/// Faults of what is declared.
const OF_DECLARATIONS: &[Row] = &[
    (
        "rule data { id 0 type replicated step set_choose_local_tries 0 }",
        1,
        Map(M1),
    ),
    ("device 0 osd.0\ndevice 0 osd.1", 2, Map(M2)),
    ("device 0 osd.0\ndevice 1 osd.0", 2, Map(M3)),
    ("root default { id -1 alg list }", 1, Map(M4)),
    ("", 1, Map(M4)),
    (
        "type 1 host\nhost a { id -1 alg list item osd.0 }",
        2,
        Map(M5),
    ),
    (
        "type 1 host\ndevice 0 osd.0\nhost a { id -1 alg list item osd.0 item osd.0 }",
        3,
        Map(M6),
    ),
    (
        "type 1 host\ndevice 0 osd.0\ndevice 1 osd.1\nhost a { id -1 alg list item osd.0 weight 65535 item osd.1 }",
        4,
        Map(M7),
    ),
    (
        "type 1 host\ndevice 0 osd.0\ndevice 1 osd.1\nhost a { id -1 alg uniform item osd.0 weight 2 item osd.1 }",
        4,
        Map(M8),
    ),
    ("type 0 osd\nosd a { id -1 alg list }", 2, Map(M9)),
    (
        "rule data { id 0 type replicated step take default }",
        1,
        Map(M10),
    ),
    (
        "rule data { id 0 type replicated step choose firstn 0 type host }",
        1,
        Map(M11),
    ),
    ("device 65536 osd.0", 1, Map(M12)),
    ("tunable choose_local_tries 2", 1, Map(M13)),
    ("type 0 osd", 1, Map(M13)),
    (
        "type 0 osd\nrule data { id 0 type erasure step chooseleaf indep 0 type osd }",
        2,
        Map(M14),
    ),
    ("type 0 rule", 1, Map(M15)),
    ("type 0 osd\ntype 1 rule", 2, Map(M15)),
    // the line is that of the first word
    ("tunable\nchoose_total_tries 1000", 1, Map(M12)),
    ("device\n65536 a", 1, Map(M12)),
    ("type 0 osd\ntype\n65536 host", 2, Map(M12)),
    ("type 0 osd\nosd\na { id -1 alg list }", 2, Map(M9)),
    (
        "type 0 osd\nrule\nq { id 256 type replicated step emit }",
        2,
        Map(M12),
    ),
    // both local tunables have to be named
    ("tunable choose_local_tries 0\ntype 0 osd", 2, Map(M13)),
    (
        "tunable choose_local_fallback_tries 0\ntype 0 osd",
        2,
        Map(M13),
    ),
];

#[test]
fn each_fault_of_what_is_declared_has_its_code(rt: HostRuntime) -> Result<(), Fail> {
    assert_faults(&rt, rt.alloc(), OF_DECLARATIONS)
}

/// The first of two faults.
const OF_TWO: &[Row] = &[
    // a device is whole without a class, so the wrong word is behind it
    ("device 0 a\ndevice 0 b\n@", 2, Map(M2)),
    // a bucket is read whole before its places are looked at, and its places before all else
    ("root r {\n id -1\n alg list\n item a pos 1\n item", 5, X1),
    (
        "root r {\n id 0\n alg list\n item a pos 0\n item b pos 0\n}",
        5,
        X5,
    ),
    // items are judged by place: the one at place 0 isn't declared
    (
        "type 1 h\ndevice 0 a\nh b {\n id -1 alg list item a pos 1 item a pos 2 item c pos 0 }",
        3,
        Map(M5),
    ),
    // a rule is judged by what is declared before it, type 0 at the end
    (
        "rule q { id 0 type erasure step take r }\ntype 0 osd",
        1,
        Map(M10),
    ),
    (
        "type 1 h rule q {\n id 0 type erasure step take r }\nh r { id -1 alg list }",
        1,
        Map(M10),
    ),
    // steps that set local tries are judged at their places
    (
        "rule q { id 0 type erasure step set_choose_local_tries 1 step take r }",
        1,
        Map(M13),
    ),
    (
        "rule q { id 0 type erasure step take r step set_choose_local_tries 1 }",
        1,
        Map(M10),
    ),
    // tunables that are dropped are named once too
    (
        "tunable straw_calc_version 1\ntunable straw_calc_version 1",
        2,
        Map(M3),
    ),
];

#[test]
fn the_first_of_two_faults_is_named(rt: HostRuntime) -> Result<(), Fail> {
    assert_faults(&rt, rt.alloc(), OF_TWO)
}

#[test]
fn a_wrong_line_of_a_map_is_named(rt: HostRuntime) -> Result<(), Fail> {
    let alloc = rt.alloc();
    for (number, line, expected) in [
        (15, " item osd.0 weight 1.0 pos 1", (15, X5)),
        (11, "rack default {", (11, Map(M4))),
        (21, " step choose firstn 65 type osd", (17, Map(M12))),
        (21, " step chooseleaf indep 0 type osd", (17, Map(M14))),
    ] {
        let text = with_line(alloc, number, line)?;
        assert_same_in(&rt, line, &fault(alloc, text.as_bytes())?, &Some(expected));
    }
    let unnamed = lines_within(alloc, 3, 23)?;
    assert_same(
        &rt,
        &fault(alloc, unnamed.as_bytes())?,
        &Some((21, Map(M13))),
    );
    Ok(())
}

/// Makes a remark of `length` bytes.
fn remark(alloc: Global, length: usize) -> Result<Vec<u8>, Fail> {
    Ok(vec![in alloc; b'#'; length]?)
}

#[test]
fn a_text_has_at_most_the_limit_of_bytes(rt: HostRuntime) -> Result<(), Fail> {
    let alloc = rt.alloc();
    let short = remark(alloc, 4_194_304)?;
    let long = remark(alloc, 4_194_305)?;
    assert_same(&rt, &fault(alloc, short.as_slice())?, &Some((1, Map(M4))));
    assert_same(&rt, &fault(alloc, long.as_slice())?, &Some((1, X7)));
    Ok(())
}

#[test]
fn a_stored_text_may_be_longer(rt: HostRuntime) -> Result<(), Fail> {
    let alloc = rt.alloc();
    let mut text = remark(alloc, 4_194_304)?;
    text.push(b'\n')?;
    text.extend_from_slice(CANONICAL.as_bytes())?;
    assert_same(&rt, &fault(alloc, text.as_slice())?, &Some((1, X7)));
    assert!(rt; read_stored(alloc, text.as_slice())?.is_ok());
    Ok(())
}

/// Makes a text of `count` devices, whose last one stands on the line `count` + 3, and of no
/// bucket.
fn devices_alone(alloc: Global, count: u32) -> Result<String, Fail> {
    let mut text = String::new(alloc);
    text.push_str("tunable choose_local_tries 0\ntunable choose_local_fallback_tries 0\n")?;
    text.push_str("type 0 osd\n")?;
    for id in 0..count {
        text.push_str(&format!(in alloc; "device {id} osd.{id}\n")?)?;
    }
    Ok(text)
}

#[test]
fn a_map_has_at_most_10000_devices(rt: HostRuntime) -> Result<(), Fail> {
    let alloc = rt.alloc();
    let most = devices_alone(alloc, 10_000)?;
    let more = devices_alone(alloc, 10_001)?;
    assert_same(&rt, &fault(alloc, most.as_bytes())?, &None);
    assert_same(
        &rt,
        &fault(alloc, more.as_bytes())?,
        &Some((10_004, Map(M1))),
    );
    Ok(())
}

/// The map of two devices in another order, with all that is dropped.
const WITH_WHAT_IS_DROPPED: &str =
    "tunable choose_local_tries 0 tunable choose_local_fallback_tries 0 tunable choose_total_tries 50
tunable chooseleaf_descend_once 1 tunable chooseleaf_vary_r 1 tunable chooseleaf_stable 1 tunable allowed_bucket_algs 54
device 1 osd.1 type 1 host device 0 osd.0 class class type 00 osd # device 2
host a { id -4 class ssd id -2 alg list hash rjenkins1 hash 0 item osd.1 weight 2.000009 pos 1 item osd.0 }
rule data { ruleset 0 type replicated min_size 1 max_size 10 step take a step choose firstn 0 type osd step set_choose_local_tries 0 step emit }";

#[test]
fn what_is_dropped_leaves_the_same_map(rt: HostRuntime) -> Result<(), Fail> {
    assert_canonical(&rt, rt.alloc(), WITH_WHAT_IS_DROPPED, TWO_DEVICES)
}

//! Texts and their first faults of form, with their lines.

use crate::jewel::WRITTEN_BY_CRUSHTOOL;
use crate::lines::{lines_within, with_line};
use crate::same::{assert_same, assert_same_in};
use crate::texts::DEVICE_0;
use crush_grammar::{TextCode, read_declarations};
use std::alloc::Global;
use std::test::Fail;

/// Finds the first fault of form, by line and code.
fn fault(alloc: Global, text: &str) -> Result<Option<(usize, TextCode)>, Fail> {
    match read_declarations(alloc, text.as_bytes())?.fault {
        Some(fault) => Ok(Some((fault.line, fault.code))),
        None => Ok(None),
    }
}

#[test]
fn texts_of_the_form_have_no_fault(rt: HostRuntime) -> Result<(), Fail> {
    let alloc = rt.alloc();
    for text in [
        "",
        DEVICE_0,
        WRITTEN_BY_CRUSHTOOL,
        "# nothing\n",
        "device 0 osd.0",
        "device 65536 a",
        "type 0 osd\ntype 1 rule",
        "device 0 class class ssd device 1 b",
        "root r { id -3 class ssd id -1 id -2 class hdd alg list hash 0 hash rjenkins1 item weight weight 1.5 pos 0 }",
        "rule q { ruleset 0 type erasure min_size 1 max_size 3 step take r step set_choose_tries 9 step chooseleaf indep -1 type 00 step emit }",
    ] {
        assert_same_in(&rt, text, &fault(alloc, text)?, &None);
    }
    Ok(())
}

#[test]
fn one_wrong_line_is_named(rt: HostRuntime) -> Result<(), Fail> {
    let alloc = rt.alloc();
    for (number, line, expected) in [
        (13, " alg straw2", (13, TextCode::X2)),
        (13, " alg straw", (13, TextCode::X2)),
        (13, " alg straw3", (13, TextCode::X1)),
        (14, " hash 1", (14, TextCode::X1)),
        (14, " hash 00", (14, TextCode::X1)),
        (15, " item osd.0 weight 65536", (15, TextCode::X6)),
        (15, " item osd.0 weight 1.", (15, TextCode::X6)),
        (15, " item osd.0 weight", (16, TextCode::X6)),
        (15, " item osd.0 weight @", (15, TextCode::X1)),
        (15, " item osd.0 pos 0 weight 1.0", (15, TextCode::X1)),
        (12, " id -1 id -2", (13, TextCode::X1)),
        (12, " id -1 class ssd", (13, TextCode::X1)),
        (20, " step take default class ssd", (20, TextCode::X3)),
        (21, " step choose firstn 0 kind osd", (21, TextCode::X1)),
        (24, "choose_args 0 {", (24, TextCode::X4)),
        (24, "device 1 osd.1", (24, TextCode::X1)),
        (24, "class", (24, TextCode::X1)),
        (8, "type 0 osd class", (8, TextCode::X1)),
    ] {
        let text = with_line(alloc, number, line)?;
        assert_same_in(&rt, line, &fault(alloc, text.as_str())?, &Some(expected));
    }
    Ok(())
}

#[test]
fn a_text_that_ends_early_is_named_by_its_last_line(rt: HostRuntime) -> Result<(), Fail> {
    let alloc = rt.alloc();
    let text = lines_within(alloc, 1, 15)?;
    assert_same(
        &rt,
        &fault(alloc, text.as_str())?,
        &Some((15, TextCode::X1)),
    );
    for text in [
        "device 0 osd.0 class",
        "@",
        "tunable",
        "root r { id -1 alg list item a weight",
    ] {
        assert_same_in(&rt, text, &fault(alloc, text)?, &Some((1, TextCode::X1)));
    }
    Ok(())
}

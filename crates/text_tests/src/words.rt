//! Words, their lines, and the numbers that they say.

use crate::same::{assert_same, assert_same_in};
use crush_grammar::{Cursor, integer_from_text, number_from_text};
use std::test::Fail;

#[test]
fn words_stand_on_their_lines(rt: HostRuntime) -> Result<(), Fail> {
    let text = b"# begin { }\r\n\titem osd.0\tweight 1.000}# x\n\r\r{a@b-c_\n# the end";
    let expected: [(usize, &[u8]); 9] = [
        (2, b"item"),
        (2, b"osd.0"),
        (2, b"weight"),
        (2, b"1.000"),
        (2, b"}"),
        (3, b"{"),
        (3, b"a"),
        (3, b"@"),
        (3, b"b-c_"),
    ];
    let mut cursor = Cursor::new(text);
    for (line, word) in expected {
        let Some((found, rest)) = cursor.next() else {
            return Err(Fail::new("no more words"));
        };
        assert_same(&rt, &found.line(), &line);
        assert_same(&rt, &found.text(), &word);
        assert_same(&rt, &rest.line(), &line);
        cursor = rest;
    }
    assert!(rt; cursor.next().is_none());
    Ok(())
}

#[test]
fn numbers_have_at_most_the_limit_of_digits(rt: HostRuntime) {
    for (text, expected) in [
        ("0", Some(0)),
        ("007", Some(7)),
        ("9999999999", Some(9_999_999_999)),
        ("", None),
        ("-1", None),
        ("1.0", None),
        ("00000000001", None),
    ] {
        assert_same_in(&rt, text, &number_from_text(text.as_bytes()), &expected);
    }
    for (text, expected) in [
        ("-0", Some(0)),
        ("-7", Some(-7)),
        ("12", Some(12)),
        ("-9999999999", Some(-9_999_999_999)),
        ("-", None),
        ("--1", None),
        ("", None),
        ("+1", None),
    ] {
        assert_same_in(&rt, text, &integer_from_text(text.as_bytes()), &expected);
    }
}

//! Texts that ask for straw2 by their first line, and texts that don't.

use crate::lines::with_line;
use crate::same::{assert_same, assert_same_in};
use TextCode::{Map, X1, X2, X7};
use crush_map::FaultCode;
use crush_text::{TextCode, read_map, read_stored};
use std::alloc::{AllocError, Global};
use std::test::Fail;

/// Finds the first fault of a text that may be imported, by line and code.
fn fault_of(alloc: Global, text: &[u8]) -> Result<Option<(usize, TextCode)>, Fail> {
    match read_map(alloc, text)? {
        Ok(_) => Ok(None),
        Err(fault) => Ok(Some((fault.line, fault.code))),
    }
}

fn fault(alloc: Global, text: &str) -> Result<Option<(usize, TextCode)>, Fail> {
    fault_of(alloc, text.as_bytes())
}

/// Makes a text of a first line, with what ends it, and the small map with `alg` as its line 13.
fn below(alloc: Global, first: &str, alg: &str) -> Result<String, AllocError> {
    let mut text = String::new(alloc);
    text.push_str(first)?;
    text.push_str(with_line(alloc, 13, alg)?.as_str())?;
    Ok(text)
}

/// What stands before a map of straw2, and its first fault: the mark with each line end; the mark
/// with a byte more, or less, before, within or behind it, with other letters, or not in the first
/// line.
const BEFORE: &[(&str, Option<(usize, TextCode)>)] = &[
    ("# crushcalc: straw2\n", None),
    ("# crushcalc: straw2\r\n", None),
    ("# crushcalc: straw2\n\r\n", None),
    ("# crushcalc: straw2\n# crushcalc: straw2\n", None),
    ("# crushcalc: straw2\n# more\n", None),
    ("", Some((13, X2))),
    ("\n", Some((14, X2))),
    ("# crushcalc: straw2 \n", Some((14, X2))),
    ("# crushcalc: straw2\t\n", Some((14, X2))),
    ("# crushcalc: straw2\r\r\n", Some((14, X2))),
    ("# crushcalc: straw2 \r\n", Some((14, X2))),
    ("# crushcalc: straw2\0\n", Some((14, X2))),
    (" # crushcalc: straw2\n", Some((14, X2))),
    ("\r# crushcalc: straw2\n", Some((14, X2))),
    ("## crushcalc: straw2\n", Some((14, X2))),
    ("#crushcalc: straw2\n", Some((14, X2))),
    ("#  crushcalc: straw2\n", Some((14, X2))),
    ("# crushcalc:straw2\n", Some((14, X2))),
    ("# crushcalc: straw\n", Some((14, X2))),
    ("# crushcalc: straw22\n", Some((14, X2))),
    ("# Crushcalc: straw2\n", Some((14, X2))),
    ("# crushcalc: Straw2\n", Some((14, X2))),
    ("# crushcalc: straw2; more\n", Some((14, X2))),
    ("\n# crushcalc: straw2\n", Some((15, X2))),
    ("# more\n# crushcalc: straw2\n", Some((15, X2))),
    ("# crushcalc: straw2 # crushcalc: straw2\n", Some((14, X2))),
    ("\u{feff}# crushcalc: straw2\n", Some((1, X1))),
];

#[test]
fn texts_ask_for_straw2_by_their_first_line_alone(rt: HostRuntime) -> Result<(), Fail> {
    let alloc = rt.alloc();
    for (first, expected) in BEFORE {
        let text = below(alloc, first, " alg straw2")?;
        assert_same_in(&rt, first, &fault(alloc, text.as_str())?, expected);
    }
    Ok(())
}

/// Lines of a kind in a text that asks for straw2.
const ALGS: &[(&str, Option<(usize, TextCode)>)] = &[
    (" alg straw2", None),
    (" alg uniform", None),
    (" alg list", None),
    (" alg tree", None),
    (" alg straw", Some((14, X2))),
    (" alg straw3", Some((14, X1))),
    (" alg Straw2", Some((14, X1))),
    (" alg straw2 straw2", Some((14, X1))),
    (" alg", Some((15, X1))),
];

#[test]
fn kinds_in_a_text_that_asks_for_straw2(rt: HostRuntime) -> Result<(), Fail> {
    let alloc = rt.alloc();
    for (alg, expected) in ALGS {
        let text = below(alloc, "# crushcalc: straw2\n", alg)?;
        assert_same_in(&rt, alg, &fault(alloc, text.as_str())?, expected);
    }
    Ok(())
}

/// The mark behind the map, with a line end and without, says nothing, nor does the mark alone.
#[test]
fn a_mark_that_no_map_follows_says_nothing(rt: HostRuntime) -> Result<(), Fail> {
    let alloc = rt.alloc();
    let mut text = with_line(alloc, 13, " alg straw2")?;
    text.push_str("# crushcalc: straw2")?;
    assert_same(&rt, &fault(alloc, text.as_str())?, &Some((13, X2)));
    text.push_str("\n")?;
    assert_same(&rt, &fault(alloc, text.as_str())?, &Some((13, X2)));
    for alone in [
        "# crushcalc: straw2",
        "# crushcalc: straw2\n",
        "# crushcalc: straw2\r",
    ] {
        assert_same_in(
            &rt,
            alone,
            &fault(alloc, alone)?,
            &Some((1, Map(FaultCode::M4))),
        );
    }
    Ok(())
}

#[test]
fn the_mark_counts_for_the_length_of_a_text(rt: HostRuntime) -> Result<(), Fail> {
    let alloc = rt.alloc();
    let map = below(alloc, "# crushcalc: straw2\n", " alg straw2")?;
    for (length, expected) in [(4_194_304, None), (4_194_305, Some((1, X7)))] {
        let mut text = vec![in alloc; b'#'; length]?;
        for (place, byte) in map.as_bytes().iter().enumerate() {
            if place < text.len() {
                text[place] = *byte;
            }
        }
        assert_same(&rt, &fault_of(alloc, text.as_slice())?, &expected);
    }
    Ok(())
}

/// A stored text asks for straw2 by the same line.
#[test]
fn stored_texts_ask_as_others_do(rt: HostRuntime) -> Result<(), Fail> {
    let alloc = rt.alloc();
    let marked = below(alloc, "# crushcalc: straw2\n", " alg straw2")?;
    let unmarked = below(alloc, "", " alg straw2")?;
    assert!(rt; read_stored(alloc, marked.as_bytes())?.is_ok());
    assert!(rt; read_stored(alloc, unmarked.as_bytes())?.is_err());
    Ok(())
}

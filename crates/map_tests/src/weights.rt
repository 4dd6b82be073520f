//! Weights as text: the worked values, the limits of the form, and what is written.

use crate::same::{assert_same, assert_same_at};
use crush_map::{Weight, weight_from_text, weight_text};
use std::test::Fail;

/// Texts, and the weight that each is, rounded down to a word; none where it isn't of the form or
/// too large.
const READ: &[(&[u8], Option<u32>)] = &[
    (b"0", Some(0)),
    (b"1", Some(65_536)),
    (b"1.000", Some(65_536)),
    (b"0.1", Some(6_553)),
    (b"0.00001", Some(0)),
    (b"0.00002", Some(1)),
    (b"65535.99999", Some(4_294_967_295)),
    (b"65535.99999999999999999999", Some(4_294_967_295)),
    (b"0000000001", Some(65_536)),
    (b"0000065535.5", Some(4_294_934_528)),
    (b"0.99999999999999999999", Some(65_535)),
    (b"0.00001525878906250000", Some(1)),
    (b"0.00001525878906249999", Some(0)),
    (b"", None),
    (b".", None),
    (b".5", None),
    (b"1.", None),
    (b"1.2.3", None),
    (b"1..2", None),
    (b"-1", None),
    (b"+1", None),
    (b"1e3", None),
    (b"1.5x", None),
    (b" 1", None),
    (b"1 ", None),
    (b"1,5", None),
    (b"/", None),
    (b":", None),
    (b"65536", None),
    (b"65536.00000", None),
    (b"9999999999", None),
    (b"00000000001", None),
    (b"00000000001.5", None),
    (b"0.000000000000000000001", None),
    (b"1\0", None),
    (b"\xff", None),
];

#[test]
fn weights_are_read_rounded_down(rt: HostRuntime) {
    for (case, (text, expected)) in READ.iter().enumerate() {
        assert_same_at(
            &rt,
            [case as u64, 0],
            &weight_from_text(text),
            &expected.map(Weight),
        );
    }
}

/// Weights, and their texts, rounded up to five places.
const WRITTEN: &[(u32, &str)] = &[
    (0, "0.00000"),
    (1, "0.00002"),
    (6_553, "0.10000"),
    (32_768, "0.50000"),
    (65_535, "0.99999"),
    (65_536, "1.00000"),
    (65_537, "1.00002"),
    (655_360_000, "10000.00000"),
    (4_294_967_295, "65535.99999"),
];

#[test]
fn weights_are_written_rounded_up_and_come_back(rt: HostRuntime) -> Result<(), Fail> {
    for (weight, expected) in WRITTEN {
        let written = weight_text(rt.alloc(), Weight(*weight))?;
        assert_same(&rt, &written.as_str(), expected);
        let again = weight_from_text(written.as_bytes());
        assert_same(&rt, &again, &Some(Weight(*weight)));
    }
    Ok(())
}

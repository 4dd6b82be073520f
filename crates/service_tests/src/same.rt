//! Assertions that show both values. The text of each `assert_eq!` is proved where it is written; a
//! call of these functions takes a fraction of that time.

use std::fmt::Debug;
use std::process::Abort;

/// Asserts that a value is the expected one.
pub(crate) fn assert_same<T: PartialEq + Debug>(rt: &impl Abort, value: &T, expected: &T) {
    assert_eq!(rt; value, expected);
}

/// Asserts the same, of a case that the numbers `case` name.
pub(crate) fn assert_same_at<T: PartialEq + Debug>(
    rt: &impl Abort,
    case: [u64; 2],
    value: &T,
    expected: &T,
) {
    assert_eq!(rt; value, expected, "case {case:?}");
}

/// Asserts that something holds in the case that the numbers name.
pub(crate) fn assert_at(rt: &impl Abort, case: [u64; 2], holds: bool) {
    assert!(rt; holds, "case {case:?}");
}

//! Assertions that show both values. The text of an `assert_eq!` is proved where it stands; a call
//! of a function below takes a fraction of that time.

use std::fmt::Debug;
use std::process::Abort;

/// Asserts that a value is the expected one.
pub(crate) fn assert_same<T: PartialEq + Debug>(rt: &impl Abort, value: &T, expected: &T) {
    assert_eq!(rt; value, expected);
}

/// Asserts that a value is the expected one, in the case that the numbers name.
pub(crate) fn assert_same_at<T: PartialEq + Debug>(
    rt: &impl Abort,
    case: [u64; 2],
    value: &T,
    expected: &T,
) {
    assert_eq!(rt; value, expected, "case {case:?}");
}

/// Asserts that a value is the expected one, in the case that the text names.
pub(crate) fn assert_same_in<T: PartialEq + Debug>(
    rt: &impl Abort,
    case: &str,
    value: &T,
    expected: &T,
) {
    assert_eq!(rt; value, expected, "{case}");
}

//! Assertions that show both values.

use std::fmt::Debug;
use std::process::Abort;

/// Asserts that a value is the expected one. The text of an `assert_eq!` is proved where it stands;
/// a call of this function takes a fraction of that time.
pub(crate) fn assert_same<T: PartialEq + Debug>(rt: &impl Abort, value: &T, wanted: &T) {
    assert_eq!(rt; value, wanted);
}

/// Asserts that a value is the expected one, in the case that the numbers name.
pub(crate) fn assert_same_at<T: PartialEq + Debug>(
    rt: &impl Abort,
    case: [u32; 3],
    value: &T,
    wanted: &T,
) {
    assert_eq!(rt; value, wanted, "case {case:?}");
}

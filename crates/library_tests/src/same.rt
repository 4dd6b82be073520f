//! Assertions that show both values. The text of each `assert_eq!` is proved where it is written; a
//! call of this function takes a fraction of that time.

use std::fmt::Debug;
use std::process::Abort;

/// Asserts that a value is the expected one.
pub(crate) fn assert_same<T: PartialEq + Debug>(rt: &impl Abort, value: &T, expected: &T) {
    assert_eq!(rt; value, expected);
}

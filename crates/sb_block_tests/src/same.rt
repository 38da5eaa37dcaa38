//! The assertion that rows share.

use std::fmt::Debug;
use std::process::Abort;

/// Stops the test where two values differ, and says at which row.
pub fn assert_same<T: PartialEq + Debug>(rt: &impl Abort, name: &str, found: &T, expected: &T) {
    assert_eq!(rt; found, expected, "{name}");
}

//! The assertions that tables of rows share.

use std::alloc::Global;
use std::fmt::{Debug, Display};
use std::process::Abort;
use std::test::Fail;

/// Stops the test where two values differ, and says at which row.
pub fn assert_same<T: PartialEq + Debug>(rt: &impl Abort, name: &str, found: &T, expected: &T) {
    assert_eq!(rt; found, expected, "{name}");
}

/// What a value says.
pub fn text_of(alloc: Global, value: &impl Display) -> Result<String, Fail> {
    Ok(format!(in alloc; "{value}")?)
}

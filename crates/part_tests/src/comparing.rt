//! What a test compares goes through these two: an assertion of its own is proved anew wherever it stands.

use std::fmt::Debug;
use std::process::Abort;

/// Sees that a value, which is told by this name, is the one that is wanted.
pub(crate) fn assert_same<T: PartialEq + Debug + Copy>(
    rt: &impl Abort,
    what: &str,
    found: T,
    wanted: T,
) {
    assert_eq!(rt; found, wanted, "{what}");
}

/// Sees so of the value with this number, of several of a name.
pub(crate) fn assert_same_at<T: PartialEq + Debug + Copy>(
    rt: &impl Abort,
    what: &str,
    number: u64,
    found: T,
    wanted: T,
) {
    assert_eq!(rt; found, wanted, "{what} {number}");
}

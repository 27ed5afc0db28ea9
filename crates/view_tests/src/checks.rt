//! What a test asks of two values, or of one claim. It stands in each crate of tests, since what
//! may abort can't stand in a library; there a call costs a proof less than an `assert_eq!`.
use std::fmt::Debug;
use std::process::Abort;

/// Ends the test unless the two are the same, and prints both.
pub fn same<T: PartialEq + Debug + Drop>(rt: &impl Abort, found: T, expected: T) {
    assert_eq!(rt; found, expected);
}

/// Ends the test unless the claim holds.
pub fn holds(rt: &impl Abort, claim: bool) {
    assert!(rt; claim);
}

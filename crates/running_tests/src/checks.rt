//! What a test asks of two values, or of one claim. Each `assert_eq!` written out costs the proof
//! of its test about two seconds, and a call of these a fraction of one. An `assert!` whose claim
//! the proof of a later call needs has to stay where it is: these promise nothing. Each crate of
//! tests has its own, since what may abort can't stand in a library.
use std::fmt::Debug;
use std::process::Abort;

/// Ends the test unless the two are the same, and prints both.
pub fn same<T: PartialEq + Debug + Drop>(rt: &impl Abort, found: T, expected: T) {
    assert_eq!(rt; found, expected);
}

/// The same of a row of a table, which is printed too.
pub fn same_row<T: PartialEq + Debug + Drop, R: Debug + Drop>(
    rt: &impl Abort,
    row: R,
    found: T,
    expected: T,
) {
    assert_eq!(rt; found, expected, "{row:?}");
}

/// Ends the test unless the claim holds.
pub fn holds(rt: &impl Abort, claim: bool) {
    assert!(rt; claim);
}

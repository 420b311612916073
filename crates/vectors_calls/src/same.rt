//! The comparison that every test here makes.

use std::process::Abort;

/// Fails if a call returned another value. A line with this call is checked in a quarter of the time of an assertion, because it
/// needs no `Debug` and leaves no fact behind. A test has an assertion only if the lines after it need the fact.
pub fn same<T: PartialEq + Drop>(rt: &impl Abort, got: T, wanted: T) {
    assert!(rt; got == wanted);
}

//! Divisors that a test shows to be other than zero.

use arbitrary_int::prelude::*;

/// The quotient, and `None` where the divisor is zero.
pub fn quotient(x: u7, y: u7) -> Option<u7> {
    if y == u7::new(0) {
        None
    } else {
        Some(x.wrapping_div(y))
    }
}

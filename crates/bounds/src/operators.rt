//! `+ - * /` and unary minus require an exact result in range, and `/` a divisor other than zero.

use arbitrary_core::aliases::signed::{i7, i17};
use arbitrary_core::aliases::unsigned::u7;

/// A sum.
pub fn unsigned_sum() -> u7 {
    u7::new(127) + u7::new(0)
}

/// A difference.
pub fn unsigned_difference() -> u7 {
    u7::new(100) - u7::new(100)
}

/// A product.
pub fn unsigned_product() -> u7 {
    u7::new(100) * u7::new(1)
}

/// A quotient.
pub fn unsigned_quotient() -> u7 {
    u7::new(22) / u7::new(1)
}

/// A sum of numbers with a sign.
pub fn signed_sum() -> i7 {
    i7::new(63) + i7::new(0)
}

/// Their difference.
pub fn signed_difference() -> i7 {
    i7::new(-60) - i7::new(4)
}

/// Their product.
pub fn signed_product() -> i7 {
    i7::new(60) * i7::new(1)
}

/// Their quotient.
pub fn signed_quotient() -> i7 {
    i7::new(22) / i7::new(1)
}

/// The quotient of the least number.
pub fn quotient_of_the_least() -> i7 {
    i7::new(-64) / i7::new(1)
}

/// The least number that can be negated.
pub fn negated() -> i17 {
    -i17::new(-65535)
}

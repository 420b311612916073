//! `+= -= *= /=` have the conditions of `+ - * /`.

use arbitrary_core::aliases::signed::i9;
use arbitrary_core::aliases::unsigned::u9;

/// A sum.
pub fn unsigned_sum() -> u9 {
    let mut x = u9::new(500);
    x += u9::new(11);
    x
}

/// A difference.
pub fn unsigned_difference() -> u9 {
    let mut x = u9::new(30);
    x -= u9::new(30);
    x
}

/// A product.
pub fn unsigned_product() -> u9 {
    let mut x = u9::new(500);
    x *= u9::new(1);
    x
}

/// A quotient.
pub fn unsigned_quotient() -> u9 {
    let mut x = u9::new(240);
    x /= u9::new(1);
    x
}

/// A sum of numbers with a sign.
pub fn signed_sum() -> i9 {
    let mut x = i9::new(250);
    x += i9::new(5);
    x
}

/// Their difference.
pub fn signed_difference() -> i9 {
    let mut x = i9::new(-250);
    x -= i9::new(6);
    x
}

/// Their product.
pub fn signed_product() -> i9 {
    let mut x = i9::new(250);
    x *= i9::new(1);
    x
}

/// Their quotient.
pub fn signed_quotient() -> i9 {
    let mut x = i9::new(240);
    x /= i9::new(1);
    x
}

//! The calls of a short name without a trait in scope.

ghost use Rattle.std.specs.Prelude.{◌≡◌, ◌↔◌, IsTrue};

use arbitrary_int::{i7, u7};

/// The width of `u7`, as a constant of the language.
pub const WIDTH: usize = u7::BITS;

/// The width of `u7`.
pub fn width() -> usize
    ensures { result ≡ 7 }
{
    u7::BITS
}

/// The width of `i7`, by a constant of the language.
pub fn constant_width() -> usize
    ensures { result ≡ 7 }
{
    WIDTH
}

/// An item for each bit of a `u7`.
pub fn bit_list() -> [bool; u7::BITS] {
    [false; u7::BITS]
}

/// Whether `i7` has this number of bits.
pub fn is_width(bits: usize) -> bool
    ensures { IsTrue result ↔ bits ≡ 7 }
{
    match bits {
        i7::BITS => true,
        _ => false,
    }
}

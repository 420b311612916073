//! Constants. A `const` item has a primitive type, from which a function or a trait's constant makes the number.

ghost use Rattle.std.specs.Prelude.{◌≡◌, pos};
ghost use Rattle.arbitrary_int.specs.Range.{hi};

use arbitrary_int::prelude::*;

pub const LIMIT: u8 = 3;

/// The greatest `u4`. A constant of the language can't read `u4::MAX`.
pub const TOP: u8 = 15;

/// The limit, as a `u4`.
pub fn limit() -> u4
    ensures { result ≡ pos 3 }
{
    u4::new(LIMIT)
}

/// A device, whose limit is a constant of its type.
pub struct Device;

/// A constant that a trait gives its value may call a function.
pub trait Limits {
    const LIMIT: u4 = u4::new(3);
}

impl Limits for Device {}

/// The greatest number of any type that has its constants.
pub fn greatest<T: Constants>() -> T
    ensures { T.number result ≡ hi T.IS_SIGNED T.BITS }
{
    T::MAX
}

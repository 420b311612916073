//! Fields joined in one word.

ghost use Rattle.std.specs.Prelude.{◌≡◌, ◌+ℤ◌, ◌*ℤ◌, pos};

use arbitrary_int::prelude::*;

/// The byte of two halves.
pub fn joined(high: u4, low: u4) -> u8
    ensures { pos result ≡ high *ℤ pos 16 +ℤ low }
{
    (high.value() << 4) | low.value()
}

/// The byte of three fields.
pub fn packed(mode: u2, channel: u2, level: u4) -> u8
    ensures { pos result ≡ mode *ℤ pos 64 +ℤ channel *ℤ pos 16 +ℤ level }
{
    (mode.value() << 6) + (channel.value() << 4) + level.value()
}

//! Laws about nested differences that clamp, and about clamping with tests.
#![tactic(auto, using(arbitrary_laws::proofs::sums::Saturations::saturations))]

ghost use Rattle.std.specs.Prelude.{◌≡◌, true, IsTrue};
ghost use Rattle.arbitrary_int.specs.Saturating.{clamp};

use arbitrary_int::prelude::*;

pub fn two_differences(x: u12, y: u12, z: u12) -> bool
    ensures { IsTrue result }
{
    x.saturating_sub(y).saturating_sub(z) == x.saturating_sub(y.saturating_add(z))
}

pub fn in_the_other_order(x: u24, y: u24, z: u24) -> bool
    ensures { IsTrue result }
{
    x.saturating_sub(y).saturating_sub(z) == x.saturating_sub(z).saturating_sub(y)
}

/// A reading that is clamped by two tests.
pub fn clamped_reading(value: i32) -> i12
    ensures { result ≡ clamp true 12 value }
{
    if value > 2047 {
        i12::MAX
    } else if value < -2048 {
        i12::MIN
    } else {
        i12::new(value as i16)
    }
}

//! Laws about the numbers `1 << place` and `(1 << place) - 1`.
#![tactic(auto, using(arbitrary_laws::proofs::places::OneBits::one_bits))]

ghost use Rattle.std.specs.Prelude.{◌≢◌, ◌<◌, IsTrue};

use arbitrary_int::prelude::*;

pub fn not_zero_with_a_sign(place: u32) -> bool
    requires { place < 12 }
    ensures { IsTrue result }
{
    i12::new(1) << place != i12::new(0)
}

pub fn apart(place: u32, other: u32) -> bool
    requires place { place < 12 }
    requires other { other < 12 }
    requires apart { place ≢ other }
    ensures { IsTrue result }
{
    u12::new(1) << place != u12::new(1) << other
}

#[tactic(auto, using(arbitrary_laws::proofs::places::OneBits::one_bit_counts))]
pub fn zeros_above(place: u32) -> bool
    requires { place < 24 }
    ensures { IsTrue result }
{
    (u24::new(1) << place).leading_zeros() == 23 - place
}

pub fn one_turned(place: u32) -> bool
    requires { place < 24 }
    ensures { IsTrue result }
{
    u24::new(1).rotate_left(place) == u24::new(1) << place
}

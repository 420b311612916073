//! Laws that relate bits to exact sums and differences, and to results that clamp.
#![tactic(auto, using(arbitrary_laws::proofs::bits::BitSums::bit_sums))]

ghost use Rattle.std.specs.Prelude.{IsTrue};

use arbitrary_int::prelude::*;

pub fn and_not_by_difference(x: u24, y: u24) -> bool
    ensures { IsTrue result }
{
    x - (x & y) == x & !y
}

pub fn xor_by_difference(x: u12, y: u12) -> bool
    ensures { IsTrue result }
{
    (x | y) - (x & y) == x ^ y
}

pub fn xor_below_clamped_sum(x: u12, y: u12) -> bool
    ensures { IsTrue result }
{
    x ^ y <= x.saturating_add(y)
}

pub fn lowest_zero_filled(x: u12) -> bool
    ensures { IsTrue result }
{
    x | x.wrapping_add(u12::new(1)) == x.wrapping_add(!x & x.wrapping_add(u12::new(1)))
}

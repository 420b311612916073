//! Laws that relate the masks made from the lowest bit that is one.
#![tactic(auto, using(arbitrary_laws::proofs::places::LowestMasks::lowest_masks))]

ghost use Rattle.std.specs.Prelude.{IsTrue};

use arbitrary_int::prelude::*;

pub fn alone_or_cleared(x: u12) -> bool
    ensures { IsTrue result }
{
    (x & x.wrapping_neg()) | (x & x.wrapping_sub(u12::new(1))) == x
}

pub fn zeros_below(x: i24) -> bool
    ensures { IsTrue result }
{
    !x & x.wrapping_sub(i24::new(1)) == !(x | x.wrapping_neg())
}

pub fn alone_and_zeros_below(x: u12) -> bool
    ensures { IsTrue result }
{
    x ^ x.wrapping_sub(u12::new(1)) == (x & x.wrapping_neg()) | (!x & x.wrapping_sub(u12::new(1)))
}

#[tactic(auto, using(arbitrary_laws::proofs::places::LowestMasks::lowest_parts))]
pub fn cleared_by_difference(x: u12) -> bool
    ensures { IsTrue result }
{
    x & x.wrapping_sub(u12::new(1)) == x.wrapping_sub(x & x.wrapping_neg())
}

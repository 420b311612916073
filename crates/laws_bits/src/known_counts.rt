//! Laws about the counts of a constant.
#![tactic(auto, using(arbitrary_laws::proofs::counts::Rulesets::known_counts))]

ghost use Rattle.std.specs.Prelude.{IsTrue};

use arbitrary_int::prelude::*;

pub fn ones_below_zero() -> bool
    ensures { IsTrue result }
{
    i12::new(-4).count_ones() == 10 && i12::new(-4).count_zeros() == 2
}

pub fn zeros_at_the_low_end() -> bool
    ensures { IsTrue result }
{
    u12::new(40).trailing_zeros() == 3 && i12::new(-40).trailing_zeros() == 3
}

pub fn ones_at_the_high_end() -> bool
    ensures { IsTrue result }
{
    u12::new(0xE0F).leading_ones() == 3 && i12::new(-17).leading_ones() == 7
}

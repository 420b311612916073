//! Laws about a number plus and minus constants, wrapped.
#![tactic(auto, using(arbitrary_laws::proofs::sums::Rulesets::offsets))]

ghost use Rattle.std.specs.Prelude.{IsTrue};

use arbitrary_int::prelude::*;

pub fn up_twice(x: u12) -> bool
    ensures { IsTrue result }
{
    x.wrapping_add(u12::new(5)).wrapping_add(u12::new(7)) == x.wrapping_add(u12::new(12))
}

pub fn up_and_further_down(x: i12) -> bool
    ensures { IsTrue result }
{
    x.wrapping_add(i12::new(5)).wrapping_sub(i12::new(9)) == x.wrapping_sub(i12::new(4))
}

pub fn up_by_a_negative(x: i12) -> bool
    ensures { IsTrue result }
{
    x.wrapping_add(i12::new(-5)) == x.wrapping_sub(i12::new(5))
}

pub fn half_turn_back(x: u4) -> bool
    ensures { IsTrue result }
{
    x.wrapping_add(u4::new(8)) == x.wrapping_sub(u4::new(8))
}

pub fn beside_a_variable(x: u12, y: u12) -> bool
    ensures { IsTrue result }
{
    x.wrapping_add(y)
        .wrapping_add(u12::new(1))
        .wrapping_sub(u12::new(1))
        == x.wrapping_add(y)
}

//! Laws about the lowest bit that is one. `x & (x - 1)` clears it, so a power of two becomes 0, and `x & -x`
//! clears the others.
#![tactic(auto, using(arbitrary_laws::proofs::places::LowestBit::lowest_bits))]

ghost use Rattle.std.specs.Prelude.{◌≢◌, ◌<◌, ◌<ℤ◌, pos, IsTrue};

use arbitrary_int::prelude::*;

pub fn cleared_has_one_less(x: u24) -> bool
    ensures { IsTrue result }
{
    x == u24::zero() || (x & x.wrapping_sub(u24::new(1))).count_ones() + 1 == x.count_ones()
}

pub fn cleared_is_less(x: u24) -> bool
    ensures { IsTrue result }
{
    x == u24::zero() || x & x.wrapping_sub(u24::new(1)) < x
}

pub fn left_alone_is_one_shifted(x: u24) -> bool
    requires { x ≢ pos 0 }
    ensures { IsTrue result }
{
    x & x.wrapping_neg() == u24::new(1) << x.trailing_zeros()
}

pub fn left_alone_of_a_positive_number(x: u20) -> bool
    requires { pos 0 <ℤ x }
    ensures { IsTrue result }
{
    x & x.wrapping_neg() == u20::new(1) << x.trailing_zeros()
}

pub fn left_alone_or_none(x: u20) -> bool
    ensures { IsTrue result }
{
    x == u20::zero() || x & x.wrapping_neg() == u20::new(1) << x.trailing_zeros()
}

#[tactic(auto, using(arbitrary_laws::proofs::places::LowestBit::powers_of_two))]
pub fn one_shifted_is_a_power_of_two(place: u8) -> bool
    requires { place < 12 }
    ensures { IsTrue result }
{
    let x = u12::new(1) << place;
    x == u12::zero() || x & (x - u12::new(1)) == u12::zero()
}

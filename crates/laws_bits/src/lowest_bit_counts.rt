//! Laws about the numbers of ones in a number's lowest set bit and in the zeros below it.
#![tactic(auto, using(arbitrary_laws::proofs::counts::LowestBitCounts::lowest_bit_counts))]

ghost use Rattle.std.specs.Prelude.{◌<◌, IsTrue};

use arbitrary_int::prelude::*;

pub fn a_low_mask(amount: u32) -> bool
    requires { amount < 24 }
    ensures { IsTrue result }
{
    ((u24::new(1) << amount) - u24::new(1)).count_ones() == amount
}

pub fn the_zeros_below(x: i12) -> bool
    ensures { IsTrue result }
{
    (!x & x.wrapping_sub(i12::new(1))).count_ones() == x.trailing_zeros()
}

pub fn one_left_alone(x: u24) -> bool
    ensures { IsTrue result }
{
    x == u24::zero() || (x & x.wrapping_neg()).count_ones() == 1
}

pub fn the_lowest_zero_filled(x: u24) -> bool
    ensures { IsTrue result }
{
    x == u24::max_value() || (x | x.wrapping_add(u24::new(1))).count_ones() == x.count_ones() + 1
}

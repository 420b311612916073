//! Laws that compare counts with other counts, of shifted numbers and of one bit. `counts` has those of one
//! number, reversed or complemented.
#![tactic(auto, using(arbitrary_laws::proofs::counts::CountBounds::count_bounds))]

ghost use Rattle.std.specs.Prelude.{◌<◌, IsTrue};

use arbitrary_int::prelude::*;

pub fn ones_of_xor(x: u24, y: u24) -> bool
    ensures { IsTrue result }
{
    (x ^ y).count_ones() <= x.count_ones() + y.count_ones()
}

pub fn ones_of_left_shift(x: u24, amount: u32) -> bool
    requires { amount < 24 }
    ensures { IsTrue result }
{
    (x << amount).count_ones() <= x.count_ones()
}

pub fn zeros_of_left_shift(x: u24) -> bool
    ensures { IsTrue result }
{
    3 <= x.wrapping_shl(3).trailing_zeros()
}

pub fn ones_of_one_bit(place: u32) -> bool
    requires { place < 24 }
    ensures { IsTrue result }
{
    (u24::new(1) << place).count_ones() == 1
}

pub fn place_of_one_bit(place: u32) -> bool
    requires { place < 24 }
    ensures { IsTrue result }
{
    (u24::new(1) << place).trailing_zeros() == place
}

pub fn low_end_is_alike(x: u24) -> bool
    ensures { IsTrue result }
{
    x.trailing_zeros() == 0 || x.trailing_ones() == 0
}

pub fn ones_of_a_masked_number(x: u24) -> bool
    ensures { IsTrue result }
{
    (x & u24::new(0xFF)).count_ones() <= 8
}

//! Laws about the mask of the k lowest bits, where k is variable: what it keeps of a number, and what it clears.
#![tactic(auto, using(arbitrary_laws::proofs::masks::VariableMasks::variable_masks))]

ghost use Rattle.std.specs.Prelude.{◌<◌, IsTrue};

use arbitrary_int::prelude::*;

pub fn mask_is_a_complement(k: u32) -> bool
    requires { k < 24 }
    ensures { IsTrue result }
{
    (u24::new(1) << k) - u24::new(1) == !(u24::max_value() << k)
}

pub fn mask_is_shifted_down(k: u32) -> bool
    requires some { 0 < k }
    requires places { k < 12 }
    ensures { IsTrue result }
{
    (u12::new(1) << k) - u12::new(1) == u12::max_value() >> (12 - k)
}

pub fn low_bits_cleared_with_a_sign(x: i24, k: u32) -> bool
    requires { k < 24 }
    ensures { IsTrue result }
{
    x & !((i24::new(1) << k).wrapping_sub(i24::new(1))) == (x >> k) << k
}

pub fn joined_by_or(x: i24, k: u32) -> bool
    requires { k < 24 }
    ensures { IsTrue result }
{
    (x & !(i24::new(-1) << k)) | ((x >> k) << k) == x
}

pub fn cleared_then_shifted_out(x: u24, k: u32) -> bool
    requires { k < 24 }
    ensures { IsTrue result }
{
    (x & (u24::max_value() << k)) >> k == x >> k
}

pub fn back_and_again(x: i12, k: u32) -> bool
    requires { k < 12 }
    ensures { IsTrue result }
{
    ((x >> k) << k) >> k == x >> k
}

pub fn nothing_above_the_mask(x: i24, k: u32) -> bool
    requires { k < 24 }
    ensures { IsTrue result }
{
    (x & ((i24::new(1) << k).wrapping_sub(i24::new(1)))) >> k == i24::zero()
}

pub fn low_bits_by_a_wrapped_difference(x: i24, k: u32) -> bool
    requires { k < 24 }
    ensures { IsTrue result }
{
    x.wrapping_sub((x >> k) << k) == x & !(i24::new(-1) << k)
}

pub fn high_bits_alone(x: u24, k: u32) -> bool
    requires { k < 24 }
    ensures { IsTrue result }
{
    x & (u24::max_value() << k) == (x >> k) << k
}

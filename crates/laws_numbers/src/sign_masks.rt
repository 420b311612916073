//! Laws about a number under its sign mask `x >> (BITS - 1)`: the absolute value, the lesser and the greater of
//! two, and a choice of 0 or -1.
#![tactic(auto, using(arbitrary_laws::proofs::signs::SignMasks::sign_masks))]

ghost use Rattle.std.specs.Prelude.{IsTrue};

use arbitrary_int::prelude::*;

pub fn at_least_zero(x: i63) -> bool
    ensures { IsTrue result }
{
    x & !(x >> 62) == x.max(i63::zero())
}

pub fn absolute_by_difference(x: i12) -> bool
    ensures { IsTrue result }
{
    let sign = x >> 11;
    (x ^ sign).wrapping_sub(sign) == if x < i12::new(0) { x.wrapping_neg() } else { x }
}

pub fn absolute_by_sum(x: i24) -> bool
    ensures { IsTrue result }
{
    let sign = x >> 23;
    x.wrapping_add(sign) ^ sign == if x < i24::zero() { x.wrapping_neg() } else { x }
}

pub fn negated_by_another_sign(x: i24, y: i24) -> bool
    ensures { IsTrue result }
{
    let sign = y >> 23;
    (x ^ sign).wrapping_sub(sign) == if y.is_negative() { x.wrapping_neg() } else { x }
}

pub fn lesser_by_mask(x: i24, y: i24) -> bool
    ensures { IsTrue result }
{
    let mask = if x < y { i24::new(-1) } else { i24::zero() };
    y ^ ((x ^ y) & mask) == x.min(y)
}

pub fn sign_as_number(x: i12) -> bool
    ensures { IsTrue result }
{
    (x >> 11) | i12::new(1)
        == if x < i12::zero() {
            i12::new(-1)
        } else {
            i12::new(1)
        }
}

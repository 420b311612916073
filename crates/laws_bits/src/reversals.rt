//! Laws about the reversal, and about a rotation as two shifts.
#![tactic(auto, using(arbitrary_laws::proofs::rotations::Rulesets::reversals))]

ghost use Rattle.std.specs.Prelude.{IsTrue, ◌<◌};

use arbitrary_int::prelude::*;

pub fn rotl_is_shifts(x: u12) -> bool
    ensures { IsTrue result }
{
    x.rotate_left(3) == (x.wrapping_shl(3) | x.wrapping_shr(12 - 3))
}

pub fn rev_and(x: u12, y: u12) -> bool
    ensures { IsTrue result }
{
    ((x & y).reverse_bits()) == (x.reverse_bits() & y.reverse_bits())
}

pub fn rev_shl(x: u12) -> bool
    ensures { IsTrue result }
{
    x.wrapping_shl(2).reverse_bits() == x.reverse_bits().wrapping_shr(2)
}

pub fn rev_rotl(x: u12) -> bool
    ensures { IsTrue result }
{
    x.rotate_left(3).reverse_bits() == x.reverse_bits().rotate_right(3)
}

pub fn rotl_by_sum(x: u12) -> bool
    ensures { IsTrue result }
{
    (x << 4).wrapping_add(x >> 8) == x.rotate_left(4)
}

pub fn one_bit_reversed(k: u8) -> bool
    requires { k < 24 }
    ensures { IsTrue result }
{
    (u24::new(1) << k).reverse_bits() == u24::new(1) << (23 - k)
}

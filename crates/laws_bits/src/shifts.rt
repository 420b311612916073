//! Laws about shifts, alone and of bits and sums.
#![tactic(auto, using(arbitrary_laws::proofs::shifts::Rulesets::shifts))]

ghost use Rattle.std.specs.Prelude.{IsTrue, ◌≤ℤ◌, ◌<ℤ◌, negsuc, pos};

use arbitrary_int::prelude::*;

pub fn shl_and(x: u12, y: u12) -> bool
    ensures { IsTrue result }
{
    ((x & y).wrapping_shl(2)) == (x.wrapping_shl(2) & y.wrapping_shl(2))
}

pub fn shr_xor(x: u12, y: u12) -> bool
    ensures { IsTrue result }
{
    ((x ^ y).wrapping_shr(2)) == (x.wrapping_shr(2) ^ y.wrapping_shr(2))
}

pub fn shr_shl_is_mask(x: u12) -> bool
    ensures { IsTrue result }
{
    x.wrapping_shr(2).wrapping_shl(2) == (x & u12::max_value().wrapping_shl(2))
}

pub fn shl_add(x: u12, y: u12) -> bool
    ensures { IsTrue result }
{
    x.wrapping_add(y).wrapping_shl(2) == x.wrapping_shl(2).wrapping_add(y.wrapping_shl(2))
}

pub fn shl_shr_is_numeral(x: u24) -> bool
    ensures { IsTrue result }
{
    x.wrapping_shl(4).wrapping_shr(4) == (x & u24::new(0xFFFFF))
}

pub fn shr_not(x: i12) -> bool
    ensures { IsTrue result }
{
    (!x).wrapping_shr(2) == !x.wrapping_shr(2)
}

pub fn small_shl_shr(x: i12) -> bool
    requires low { negsuc 127 ≤ℤ x }
    requires high { x <ℤ pos 128 }
    ensures { IsTrue result }
{
    (x << 4) >> 4 == x
}

pub fn sign_extended(x: i12) -> bool
    ensures { IsTrue result }
{
    (x << 8) >> 8 == i12::from_(x.as_::<i4>())
}

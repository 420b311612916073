//! Laws about an overflow, computed from the signs of the operands and of the wrapped result.
#![tactic(auto, using(arbitrary_laws::proofs::signs::OverflowBits::overflow_bits))]

ghost use Rattle.std.specs.Prelude.{◌↔◌, ◌⊎◌, ◌<ℤ◌, ◌+ℤ◌, ◌-ℤ◌, pos, neg_ℤ, IsTrue};

use arbitrary_int::prelude::*;

pub fn sum_overflows(x: i12, y: i12) -> bool
    ensures { IsTrue result ↔ (((x +ℤ y) <ℤ neg_ℤ (pos 2048)) ⊎ (pos 2047 <ℤ (x +ℤ y))) }
{
    (x ^ x.wrapping_add(y)) & (y ^ x.wrapping_add(y)) < i12::zero()
}

pub fn difference_overflows(x: i12, y: i12) -> bool
    ensures { IsTrue result ↔ (((x -ℤ y) <ℤ neg_ℤ (pos 2048)) ⊎ (pos 2047 <ℤ (x -ℤ y))) }
{
    let difference = x.wrapping_sub(y);
    (x ^ y) & (difference ^ x) < i12::zero()
}

pub fn sum_and_flag(x: i12, y: i12) -> bool
    ensures { IsTrue result }
{
    let (sum, overflow) = x.overflowing_add(y);
    overflow == ((x ^ sum) & (y ^ sum) < i12::zero())
}

#[tactic(auto, using(arbitrary_laws::proofs::signs::OverflowBits::sign_of_xor))]
pub fn signs_differ(x: i48, y: i48) -> bool
    ensures { IsTrue result }
{
    ((x ^ y) < i48::zero()) == ((x < i48::zero()) != (y < i48::zero()))
}

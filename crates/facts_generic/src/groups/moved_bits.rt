//! Laws about shifts of masks, of complements and of reversed numbers, in code that is generic over the type.
//! The line below opens their group.
#![tactic(auto, unfolding(arbitrary_int::specs::GenericLaws::MovedBitLaws))]

ghost use Rattle.std.specs.Prelude.{IsTrue};

use arbitrary_int::prelude::*;
use arbitrary_int::traits::{SignedInteger, UnsignedInteger};

pub fn left_and_right_shift_mask<V: FixedWidth + UnsignedInteger>(x: V, n: u32) -> bool
    ensures { IsTrue result }
{
    x.wrapping_shl(n).wrapping_shr(n) == x & (!V::zero()).wrapping_shr(n)
}

pub fn reversal_of_a_left_shift<V: FixedWidth + UnsignedInteger>(x: V, n: u32) -> bool
    ensures { IsTrue result }
{
    x.wrapping_shl(n).reverse_bits() == x.reverse_bits().wrapping_shr(n)
}

pub fn right_shift_of_a_complement<V: FixedWidth + SignedInteger>(x: V, n: u32) -> bool
    ensures { IsTrue result }
{
    (!x).wrapping_shr(n) == !x.wrapping_shr(n)
}

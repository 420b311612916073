//! Laws about products of differences that wrap and of shifted numbers, in code that is generic over the type.
//! The line below opens their group.
#![tactic(auto, unfolding(arbitrary_int::specs::GenericLaws::ProductLaws))]

ghost use Rattle.std.specs.Prelude.{IsTrue};

use arbitrary_int::prelude::*;

pub fn product_of_a_difference<V: FixedWidth>(x: V, y: V, z: V) -> bool
    ensures { IsTrue result }
{
    x.wrapping_mul(y.wrapping_sub(z)) == x.wrapping_mul(y).wrapping_sub(x.wrapping_mul(z))
}

pub fn left_shift_of_a_difference<V: FixedWidth>(x: V, y: V) -> bool
    ensures { IsTrue result }
{
    x.wrapping_sub(y).wrapping_shl(3) == x.wrapping_shl(3).wrapping_sub(y.wrapping_shl(3))
}

pub fn left_shift_of_a_product<V: FixedWidth>(x: V, y: V) -> bool
    ensures { IsTrue result }
{
    x.wrapping_shl(2).wrapping_mul(y) == x.wrapping_mul(y).wrapping_shl(2)
}

//! Laws about sums and differences of bits that wrap, in code that is generic over the type. The line below
//! opens their group.
#![tactic(auto, unfolding(arbitrary_int::specs::GenericLaws::BitSumLaws))]

ghost use Rattle.std.specs.Prelude.{◌≡◌, IsTrue, pos};

use arbitrary_int::prelude::*;

pub fn shared_bits_and_all<V: FixedWidth>(x: V, y: V) -> bool
    requires { V.valid }
    ensures { IsTrue result }
{
    (x & y).wrapping_add(x | y) == x.wrapping_add(y)
}

pub fn all_bits_less_shared<V: FixedWidth>(x: V, y: V) -> bool
    requires { V.valid }
    ensures { IsTrue result }
{
    (x | y).wrapping_sub(x & y) == x ^ y
}

pub fn complement_added<V: FixedWidth>(x: V) -> bool
    requires { V.valid }
    ensures { IsTrue result }
{
    x.wrapping_add(!x) == !V::zero()
}

pub fn negated_by_complement<V: FixedWidth>(x: V, one: V) -> bool
    requires width { V.valid }
    requires one { V.number one ≡ pos 1 }
    ensures { IsTrue result }
{
    V::zero().wrapping_sub(x) == (!x).wrapping_add(one)
}

pub fn other_bits_by_difference<V: FixedWidth>(x: V, y: V) -> bool
    requires { V.valid }
    ensures { IsTrue result }
{
    (x | y).wrapping_sub(x) == y & !x
}

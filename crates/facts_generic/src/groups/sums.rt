//! Laws about sums and differences that wrap, in code that is generic over the type. The line below opens their
//! group.
#![tactic(auto, unfolding(arbitrary_int::specs::GenericLaws::SumLaws))]

ghost use Rattle.std.specs.Prelude.{IsTrue};

use arbitrary_int::prelude::*;

pub fn left_summand_taken_away<V: FixedWidth>(x: V, y: V) -> bool
    requires { V.valid }
    ensures { IsTrue result }
{
    x.wrapping_add(y).wrapping_sub(x) == y
}

pub fn differences_swap<V: FixedWidth>(x: V, y: V, z: V) -> bool
    requires { V.valid }
    ensures { IsTrue result }
{
    x.wrapping_sub(y).wrapping_sub(z) == x.wrapping_sub(z).wrapping_sub(y)
}

pub fn two_differences<V: FixedWidth>(x: V, y: V, z: V) -> bool
    requires { V.valid }
    ensures { IsTrue result }
{
    x.wrapping_sub(y).wrapping_sub(z) == x.wrapping_sub(y.wrapping_add(z))
}

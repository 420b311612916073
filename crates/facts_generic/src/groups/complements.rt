//! Laws about complements of sums and differences that wrap, in code that is generic over the type. The line
//! below opens their group.
#![tactic(auto, unfolding(arbitrary_int::specs::GenericLaws::ComplementLaws))]

ghost use Rattle.std.specs.Prelude.{IsTrue};

use arbitrary_int::prelude::*;

pub fn complement_of_a_difference<V: FixedWidth>(x: V, y: V) -> bool
    ensures { IsTrue result }
{
    !x.wrapping_sub(y) == (!x).wrapping_add(y)
}

pub fn complement_of_a_sum<V: FixedWidth>(x: V, y: V) -> bool
    ensures { IsTrue result }
{
    !x.wrapping_add(y) == (!x).wrapping_sub(y)
}

//! Laws about the number of ones, in code that is generic over the type. The line below opens their group.
#![tactic(auto, unfolding(arbitrary_int::specs::GenericLaws::CountLaws))]

ghost use Rattle.std.specs.Prelude.{IsTrue};

use arbitrary_int::prelude::*;

pub fn ones_of_both<V: FixedWidth>(x: V, y: V) -> bool
    requires { V.valid }
    ensures { IsTrue result }
{
    (x | y).count_ones() + (x & y).count_ones() == x.count_ones() + y.count_ones()
}

pub fn ones_of_disjoint<V: FixedWidth>(x: V, y: V) -> bool
    requires { V.valid }
    ensures { IsTrue result }
{
    x & y != V::zero() || (x | y).count_ones() == x.count_ones() + y.count_ones()
}

pub fn ones_of_shared_bits<V: FixedWidth>(x: V, y: V) -> bool
    ensures { IsTrue result }
{
    (x & y).count_ones() <= x.count_ones()
}

//! Laws about the order of complements, in code that is generic over the type. The line below opens their group.
#![tactic(auto, unfolding(arbitrary_int::specs::GenericLaws::OrderLaws))]

ghost use Rattle.std.specs.Prelude.{IsTrue};

use arbitrary_int::prelude::*;

pub fn complements_below<V: FixedWidth>(x: V, y: V) -> bool
    requires { V.valid }
    ensures { IsTrue result }
{
    (x < y) == (!y < !x)
}

pub fn complements_at_most<V: FixedWidth>(x: V, y: V) -> bool
    requires { V.valid }
    ensures { IsTrue result }
{
    (x <= y) == (!y <= !x)
}

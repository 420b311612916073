//! Laws about a result that is converted to a narrower type: you may convert before or after the operation.
#![tactic(auto, using(arbitrary_laws::proofs::shifts::Truncations::truncations))]

ghost use Rattle.std.specs.Prelude.{IsTrue};

use arbitrary_int::prelude::*;

pub fn sum(x: u24, y: u24) -> bool
    ensures { IsTrue result }
{
    x.wrapping_add(y).as_::<u9>() == x.as_::<u9>().wrapping_add(y.as_::<u9>())
}

pub fn product(x: u48, y: u48) -> bool
    ensures { IsTrue result }
{
    x.wrapping_mul(y).as_::<u5>() == x.as_::<u5>().wrapping_mul(y.as_::<u5>())
}

pub fn not(x: i24) -> bool
    ensures { IsTrue result }
{
    (!x).as_::<u9>() == !x.as_::<u9>()
}

pub fn left_shift(x: u24) -> bool
    ensures { IsTrue result }
{
    x.wrapping_shl(3).as_::<u9>() == x.as_::<u9>().wrapping_shl(3)
}

pub fn twice(x: u48) -> bool
    ensures { IsTrue result }
{
    x.as_::<u24>().as_::<u12>() == x.as_::<u12>()
}

pub fn through_the_other_sign(x: i48) -> bool
    ensures { IsTrue result }
{
    x.to_unsigned().as_::<u12>() == x.as_::<u12>()
}

pub fn rotation_of_the_other_sign(x: i12) -> bool
    ensures { IsTrue result }
{
    x.rotate_left(3).to_unsigned() == x.to_unsigned().rotate_left(3)
}

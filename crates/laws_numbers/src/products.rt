//! Laws about products that wrap.
#![tactic(auto, using(arbitrary_laws::proofs::sums::Rulesets::products))]

ghost use Rattle.std.specs.Prelude.{IsTrue};

use arbitrary_int::prelude::*;

pub fn mul_assoc(x: u12, y: u12, z: u12) -> bool
    ensures { IsTrue result }
{
    x.wrapping_mul(y).wrapping_mul(z) == x.wrapping_mul(y.wrapping_mul(z))
}

pub fn distributes(x: u12, y: u12, z: u12) -> bool
    ensures { IsTrue result }
{
    x.wrapping_mul(y.wrapping_add(z)) == x.wrapping_mul(y).wrapping_add(x.wrapping_mul(z))
}

pub fn both_negated(x: i12, y: i12) -> bool
    ensures { IsTrue result }
{
    i12::zero()
        .wrapping_sub(x)
        .wrapping_mul(i12::zero().wrapping_sub(y))
        == x.wrapping_mul(y)
}

pub fn shl_is_product(x: i12) -> bool
    ensures { IsTrue result }
{
    x.wrapping_shl(2) == x.wrapping_mul(i12::new(4))
}

pub fn difference_of_squares(x: u12, y: u12) -> bool
    ensures { IsTrue result }
{
    x.wrapping_add(y).wrapping_mul(x.wrapping_sub(y))
        == x.wrapping_mul(x).wrapping_sub(y.wrapping_mul(y))
}

/// The greatest number of a type with no sign multiplies as -1 does.
pub fn times_highest(x: u12) -> bool
    ensures { IsTrue result }
{
    x.wrapping_mul(u12::max_value()) == x.wrapping_neg()
}

pub fn product_beside_its_flag(x: i12, y: i12, z: i12) -> bool
    ensures { IsTrue result }
{
    x.overflowing_mul(y.wrapping_add(z)).0 == x.wrapping_mul(y).wrapping_add(x.wrapping_mul(z))
}

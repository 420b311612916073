//! Laws about powers, quotients and conversions at their ends.
#![tactic(auto, using(arbitrary_laws::proofs::sums::Rulesets::exact))]

ghost use Rattle.std.specs.Prelude.{IsTrue};

use arbitrary_int::prelude::*;

pub fn pow_two(x: u12) -> bool
    ensures { IsTrue result }
{
    x.saturating_pow(2) == x.saturating_mul(x)
}

pub fn clamped_sums_associate(x: u24, y: u24, z: u24) -> bool
    ensures { IsTrue result }
{
    x.saturating_add(y).saturating_add(z) == x.saturating_add(y.saturating_add(z))
}

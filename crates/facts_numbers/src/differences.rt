//! Facts about distances that wrap, and about negation.
#![tactic(auto, using(arbitrary_laws::proofs::sums::Rulesets::negations))]

ghost use Rattle.std.specs.Prelude.{◌≡◌, pos, IsTrue};

use arbitrary_int::prelude::*;

pub fn distance_is_walked(from: u12, to: u12) -> u12
    ensures { result ≡ to }
{
    from.wrapping_add(to.wrapping_sub(from))
}

pub fn negated_and_added(x: u12) -> u12
    ensures { result ≡ pos 0 }
{
    x.wrapping_add(x.wrapping_neg())
}

pub fn complement_is_negation_less_one(x: i12) -> bool
    ensures { IsTrue result }
{
    x == i12::min_value() || !x == x.wrapping_neg() - i12::new(1)
}

pub fn negated_twice(x: u24) -> u24
    ensures { result ≡ x }
{
    x.wrapping_neg().wrapping_neg()
}

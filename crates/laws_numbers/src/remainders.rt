//! Laws about a number minus its quotient times the divisor: it is the remainder, and its range is known.
#![tactic(auto, using(arbitrary_laws::proofs::numbers::Remainders::remainders))]

ghost use Rattle.std.specs.Prelude.{◌≡◌, ◌<ℤ◌, IsTrue, int_rem, neg_ℤ, pos};

use arbitrary_int::prelude::*;

pub fn below_divisor(x: i12, y: i12) -> bool
    ensures { IsTrue result }
{
    y <= i12::new(0) || x - (x / y) * y < y
}

pub fn signed_remainder(x: i24, y: i24) -> i24
    requires { pos 0 <ℤ y }
    ensures high { result <ℤ y }
    ensures low { neg_ℤ y <ℤ result }
    ensures number { result ≡ int_rem x y }
{
    x - (x / y) * y
}

#[tactic(auto, using(arbitrary_laws::proofs::numbers::Remainders::natural_remainders))]
pub fn below_natural_divisor(x: u12, y: u12) -> bool
    ensures { IsTrue result }
{
    y == u12::new(0) || x - (x / y) * y < y
}

#[tactic(auto, using(arbitrary_laws::proofs::numbers::Remainders::natural_remainders))]
pub fn remainder(x: u24, y: u24) -> u24
    requires { pos 0 <ℤ y }
    ensures high { result <ℤ y }
    ensures number { result ≡ int_rem x y }
{
    x - (x / y) * y
}

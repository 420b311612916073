//! Facts about quotients multiplied by their divisor, and about powers.
#![tactic(auto, using(arbitrary_laws::proofs::numbers::Rulesets::quotients))]

ghost use Rattle.std.specs.Prelude.{◌≡◌, ◌*ℤ◌, ◌≤ℤ◌, ◌<ℤ◌, pos};

use arbitrary_int::prelude::*;

pub fn cube(x: u4) -> u12
    ensures { result ≡ x *ℤ x *ℤ x }
{
    u12::from_(x).saturating_pow(3)
}

pub fn remainder(a: u24, b: u24) -> u24
    requires { pos 0 <ℤ b }
    ensures { result <ℤ b }
{
    a - a / b * b
}

pub fn blocks(size: u24, block: u12) -> u24
    requires { pos 0 <ℤ block }
    ensures { result ≤ℤ size }
{
    size / u24::from_(block) * u24::from_(block)
}

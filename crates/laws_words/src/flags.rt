//! Flags that a constant mask sets and clears.
#![tactic(auto, using(arbitrary_laws::proofs::masks::Rulesets::flags))]

ghost use Rattle.std.specs.Prelude.{◌≡◌, ◌/◌, ◌%◌, ◌+ℤ◌, ◌-ℤ◌, pos, unsigned_abs, IsTrue};

use arbitrary_int::prelude::*;

pub fn or_exact(x: u12) -> u12
    requires { unsigned_abs x % 256 ≡ 0 }
    ensures { result ≡ x +ℤ pos 0xA5 }
{
    x | u12::new(0xA5)
}

pub fn cleared_by_negative(x: i12) -> bool
    ensures { IsTrue result }
{
    (x & i12::new(!0x40)) & i12::new(0x40) == i12::new(0)
}

pub fn toggled(x: u12) -> u12
    requires { unsigned_abs x / 64 % 2 ≡ 1 }
    ensures { result ≡ x -ℤ pos 64 }
{
    x ^ u12::new(64)
}

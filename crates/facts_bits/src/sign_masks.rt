//! Facts about numbers under copies of their own sign, as code without branches has them.
#![tactic(auto, using(arbitrary_laws::proofs::signs::SignWord::signs))]

ghost use Rattle.std.specs.Prelude.{◌≡◌, ◌-ℤ◌, ◌≤ℤ◌, ◌<ℤ◌, pos, neg_ℤ};

use arbitrary_int::prelude::*;

pub fn positive_part(x: i12) -> i12
    ensures positive { pos 0 ≤ℤ x → result ≡ x }
    ensures negative { x <ℤ pos 0 → result ≡ pos 0 }
{
    x & !(x >> 11)
}

pub fn turned_below_zero(x: i12) -> i12
    ensures positive { pos 0 ≤ℤ x → result ≡ x }
    ensures negative { x <ℤ pos 0 → result ≡ neg_ℤ x -ℤ pos 1 }
{
    x ^ (x >> 11)
}

pub fn sign_of(x: i12) -> i12
    ensures negative { x <ℤ pos 0 → result ≡ neg_ℤ (pos 1) }
    ensures zero { x ≡ pos 0 → result ≡ pos 0 }
{
    (x >> 11) | i12::from_(u1::from(x > i12::new(0)))
}

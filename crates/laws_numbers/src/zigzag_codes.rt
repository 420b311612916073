//! Laws about zigzag codes, which store the sign in the lowest bit, so that small numbers of either sign have
//! small codes.
#![tactic(auto, using(arbitrary_laws::proofs::signs::ZigZag::zigzag))]

ghost use Rattle.std.specs.Prelude.{◌≡◌, ◌-ℤ◌, ◌*ℤ◌, ◌≤ℤ◌, ◌<ℤ◌, pos, neg_ℤ};

use arbitrary_int::prelude::*;

pub fn code(x: i12) -> u12
    ensures above { pos 0 ≤ℤ x → result ≡ pos 2 *ℤ x }
    ensures below { x <ℤ pos 0 → result ≡ neg_ℤ (pos 2 *ℤ x) -ℤ pos 1 }
{
    ((x << 1) ^ (x >> 11)).to_unsigned()
}

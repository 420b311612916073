//! Laws at `i12`, and clauses that use the words of the operations.
#![tactic(auto, using(arbitrary_laws::proofs::bits::Rulesets::distribution))]

ghost use Rattle.std.specs.Prelude.{◌≡◌, IsTrue, true};
ghost use Rattle.arbitrary_int.specs.Operation.{bitwise_and, rotated_left};

use arbitrary_int::prelude::*;

pub fn de_morgan_or(x: i12, y: i12) -> bool
    ensures { IsTrue result }
{
    (!(x | y)) == (!x & !y)
}

/// The bits that two masks share.
pub fn masked(x: i12, mask: i12) -> i12
    ensures { result ≡ bitwise_and true 12 mask x }
{
    x & mask
}

/// A clause in the words of the operations holds over two calls whose clauses have them.
#[tactic(auto, using(arbitrary_laws::proofs::bits::Rulesets::bits))]
pub fn masked_twice(x: i12, m: i12, n: i12) -> i12
    ensures { result ≡ bitwise_and true 12 (bitwise_and true 12 m n) x }
{
    masked(masked(x, m), n)
}

#[tactic(auto, using(arbitrary_laws::proofs::rotations::Rulesets::rotations))]
pub fn turned_twice(x: i12) -> i12
    ensures { result ≡ rotated_left true 12 x 5 }
{
    x.rotate_left(2).rotate_left(3)
}

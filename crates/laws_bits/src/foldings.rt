//! Laws about `^` of a number and itself shifted: Gray codes there and back, and steps of generators that undo
//! themselves.
#![tactic(auto, using(arbitrary_laws::proofs::shifts::Rulesets::shifted_xors))]

ghost use Rattle.std.specs.Prelude.{IsTrue};

use arbitrary_int::prelude::*;

/// Of four bits, back by doubled shifts.
#[tactic(auto, using(arbitrary_laws::proofs::shifts::Rulesets::folds))]
pub fn gray_of_four_bits(x: u4) -> bool
    ensures { IsTrue result }
{
    let gray = x ^ (x >> 1);
    let half = gray ^ (gray >> 1);
    half ^ (half >> 2) == x
}

/// Of four bits, where the code is shifted by two places first.
#[tactic(auto, using(arbitrary_laws::proofs::shifts::FoldingOrder::folding_orders))]
pub fn gray_by_two_places_first(x: u4) -> bool
    ensures { IsTrue result }
{
    let gray = x ^ (x >> 1);
    let half = gray ^ (gray >> 2);
    half ^ (half >> 1) == x
}

/// The code of an `^` is the `^` of the codes.
pub fn gray_of_xor(x: u12, y: u12) -> bool
    ensures { IsTrue result }
{
    (x ^ y) ^ ((x ^ y) >> 1) == (x ^ (x >> 1)) ^ (y ^ (y >> 1))
}

/// A shift by half of the bits or more undoes itself.
pub fn right_again(x: u24) -> bool
    ensures { IsTrue result }
{
    let y = x ^ (x >> 13);
    y ^ (y >> 13) == x
}

//! Laws about the sign of an expression on bits: it decides the order of two numbers, their equality, and an
//! overflow.
#![tactic(auto, using(arbitrary_laws::proofs::signs::SignTests::sign_tests))]

ghost use Rattle.std.specs.Prelude.{◌≡◌, ◌+ℤ◌, pos, IsTrue};

use arbitrary_int::prelude::*;

pub fn like_signs(x: i100, y: i100) -> bool
    ensures { IsTrue result }
{
    (x ^ y >= i100::zero()) == (x.is_negative() == y.is_negative())
}

pub fn below_by_bits(x: i63, y: i63) -> bool
    ensures { IsTrue result }
{
    ((x & !y) | (!(x ^ y) & x.wrapping_sub(y)) < i63::zero()) == (x < y)
}

pub fn below_by_overflow(x: i24, y: i24) -> bool
    ensures { IsTrue result }
{
    let difference = x.wrapping_sub(y);
    (difference ^ ((x ^ y) & (difference ^ x)) < i24::zero()) == (x < y)
}

pub fn differ(x: i100, y: i100) -> bool
    ensures { IsTrue result }
{
    (x.wrapping_sub(y) | y.wrapping_sub(x) < i100::zero()) == (x != y)
}

pub fn positive(x: i63) -> bool
    ensures { IsTrue result }
{
    (x.wrapping_neg() & !x < i63::zero()) == x.is_positive()
}

#[tactic(auto, using(arbitrary_laws::proofs::signs::SignTests::overflow_tests))]
pub fn overflow_of_like_signs(x: i7, y: i7) -> bool
    ensures { IsTrue result }
{
    let sum = x.wrapping_add(y);
    (!(x ^ y) & (x ^ sum) < i7::zero()) == x.checked_add(y).is_none()
}

#[tactic(auto, using(arbitrary_laws::proofs::signs::TurnedSigns::turned_signs))]
pub fn order_with_the_sign_turned(x: i12, y: i12) -> bool
    ensures { IsTrue result }
{
    let sign = i12::min_value();
    (x < y) == ((x ^ sign).to_unsigned() < (y ^ sign).to_unsigned())
}

#[tactic(auto, using(arbitrary_laws::proofs::signs::TurnedSigns::turned_signs))]
pub fn number_with_the_sign_turned(x: i12) -> u12
    ensures { result ≡ x +ℤ pos 2048 }
{
    (x ^ i12::min_value()).to_unsigned()
}

//! Facts about an operand that a call returned, and the call that undoes it. Most functions name the set of
//! their operation.

ghost use Rattle.std.specs.Prelude.{◌≡◌, false, IsTrue};
ghost use Rattle.arbitrary_int.specs.Operation.{bitwise_xor, reversed, rotated_right, wrapped_difference, wrapped_sum};

use arbitrary_int::Int;
use arbitrary_int::prelude::*;

#[tactic(auto, using(arbitrary_laws::proofs::sums::Rulesets::ring))]
pub fn sum(c: u12, p: u12, k: u12) -> u12
    requires { c ≡ wrapped_sum false 12 p k }
    ensures { result ≡ p }
{
    c.wrapping_sub(k)
}

#[tactic(auto, using(arbitrary_laws::proofs::sums::Rulesets::ring))]
pub fn difference(c: u12, p: u12, k: u12) -> u12
    requires { c ≡ wrapped_difference false 12 p k }
    ensures { result ≡ p }
{
    c.wrapping_add(k)
}

#[tactic(auto, using(arbitrary_laws::proofs::bits::Rulesets::bits))]
pub fn exclusive_or(c: u12, p: u12, k: u12) -> u12
    requires { c ≡ bitwise_xor false 12 p k }
    ensures { result ≡ p }
{
    c ^ k
}

#[tactic(auto, using(arbitrary_laws::proofs::rotations::Rulesets::rotations))]
pub fn left_rotation(c: u12, p: u12) -> u12
    requires { c ≡ rotated_right false 12 p 5 }
    ensures { result ≡ p }
{
    c.rotate_left(5)
}

#[tactic(auto, using(arbitrary_laws::proofs::rotations::Rulesets::reversals))]
pub fn reversal(c: u12, p: u12) -> u12
    requires { c ≡ reversed false 12 p }
    ensures { result ≡ p }
{
    c.reverse_bits()
}

pub fn bits_of_128(a: u120) -> bool
    ensures { IsTrue result }
{
    u120::from_u128_bits(a.to_u128_bits()) == a
}

pub fn bits_of_128_signed(a: i24) -> i24
    ensures { result ≡ a }
{
    i24::from_u128_bits(a.to_u128_bits())
}

pub fn negated_twice(x: u12) -> bool
    ensures { IsTrue result }
{
    x.wrapping_neg().wrapping_neg() == x
}

pub fn negated_twice_at_any_width<const BITS: usize>(x: Int<i32, BITS>) -> bool
    ensures { IsTrue result }
{
    x.wrapping_neg().wrapping_neg() == x
}

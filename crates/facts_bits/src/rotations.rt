//! Facts about rotations.
#![tactic(auto, using(arbitrary_laws::proofs::rotations::Rulesets::rotations))]

ghost use Rattle.std.specs.Prelude.{◌≡◌, ◌+◌, ◌*◌, ◌/◌, ◌%◌, ◌*ℤ◌, ◌<ℤ◌, pos, unsigned_abs, IsTrue};

use arbitrary_int::prelude::*;

pub fn nibbles_swapped_twice(x: u8) -> u8
    ensures { result ≡ x }
{
    let once = UInt::<u8, 8>::new(x).rotate_left(4);
    once.rotate_left(4).value()
}

pub fn halves_of_a_ring(x: u24) -> u24
    ensures { result ≡ x }
{
    x.rotate_left(12).rotate_left(12)
}

pub fn ring_is_left_or_right(x: u24) -> bool
    ensures { IsTrue result }
{
    x.rotate_left(4) == x.rotate_right(20)
}

pub fn turned_by_the_width(x: u12) -> u12
    ensures { result ≡ x }
{
    x.rotate_left(12)
}

pub fn turned_three_times(x: u12) -> u12
    ensures { result ≡ x }
{
    x.rotate_left(4).rotate_left(4).rotate_left(4)
}

#[tactic(auto, using(arbitrary_laws::proofs::rotations::Rulesets::reversals))]
pub fn two_shifts(x: u12) -> bool
    ensures { IsTrue result }
{
    x.rotate_left(4) == (x << 4) | (x >> 8)
}

// ---- by quotient and remainder

#[tactic(auto, using(arbitrary_laws::proofs::rotations::Rulesets::rotated_numbers))]
pub fn halves_swapped(x: u12) -> u12
    ensures { result ≡ pos (unsigned_abs x % 64 * 64 + unsigned_abs x / 64) }
{
    x.rotate_left(6)
}

#[tactic(auto, using(arbitrary_laws::proofs::rotations::Rulesets::rotated_numbers))]
pub fn low_byte_first(x: u24) -> u24
    ensures { result ≡ pos (unsigned_abs x % 256 * 65536 + unsigned_abs x / 256) }
{
    x.rotate_right(8)
}

#[tactic(auto, using(arbitrary_laws::proofs::rotations::Rulesets::rotated_numbers))]
pub fn doubled_below_the_half(x: u12) -> u12
    requires { x <ℤ pos 2048 }
    ensures { result ≡ pos 2 *ℤ x }
{
    x.rotate_left(1)
}

#[tactic(auto, using(arbitrary_laws::proofs::rotations::Rulesets::rotated_numbers))]
pub fn highest_bit_comes_in_below(x: u12) -> u1
    ensures { result ≡ pos (unsigned_abs x / 2048) }
{
    u1::extract_u16(x.rotate_left(1).value(), 0)
}

#[tactic(auto, using(arbitrary_laws::proofs::rotations::Rulesets::rotated_numbers))]
pub fn highest_bit_is_the_lowest_then(x: u12) -> bool
    ensures { IsTrue result }
{
    x.rotate_left(1) & u12::new(1) == x >> 11
}

#[tactic(auto, using(arbitrary_laws::proofs::rotations::Rulesets::rotated_numbers))]
pub fn highest_byte_is_the_lowest_then(x: u24) -> bool
    ensures { IsTrue result }
{
    x.rotate_left(8) & u24::new(0xFF) == x >> 16
}

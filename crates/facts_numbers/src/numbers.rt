//! Facts about numbers that are stored, halved, scaled and squared, and about what is refused.

ghost use Rattle.std.specs.Prelude.{◌≡◌, ◌↔◌, ◌≤◌, ◌+ℤ◌, ◌-ℤ◌, ◌≤ℤ◌, ◌<ℤ◌, pos, IsTrue, IsNone};

use arbitrary_int::prelude::*;

pub fn difference_of_two(a: u12, b: u12) -> u12
    ensures upper { b ≤ℤ a → result ≡ a -ℤ b }
    ensures lower { a ≤ℤ b → result ≡ b -ℤ a }
{
    if a < b { b - a } else { a - b }
}

pub fn held(x: i12) -> i12
    ensures low { pos 0 ≤ℤ result }
    ensures high { result ≤ℤ pos 100 }
{
    x.clamp(i12::new(0), i12::new(100))
}

pub fn middle(a: u12, b: u12) -> u12
    ensures { result ≤ℤ pos 4095 }
{
    u12::from_((u13::from_(a) + u13::from_(b)) >> 1)
}

pub fn negative(x: i5) -> bool
    ensures { IsTrue result ↔ (x <ℤ pos 0) }
{
    x.is_negative()
}

pub fn all_bits_of_minus_one() -> u12
    ensures { result ≡ pos 4095 }
{
    i12::new(-1).to_unsigned()
}

pub fn small_is_taken(x: i8) -> bool
    requires low { (pos 0 -ℤ pos 16) ≤ℤ x }
    requires high { x ≤ℤ pos 15 }
    ensures { IsTrue result }
{
    i5::try_new(x).is_ok()
}

pub fn large_is_refused(x: i8) -> bool
    requires { pos 15 <ℤ x }
    ensures { IsTrue result }
{
    i5::try_new(x).is_err()
}

pub fn gain(sample: i12) -> i12
    ensures { pos 0 ≤ℤ sample → sample ≤ℤ result }
{
    sample.saturating_mul(i12::new(2))
}

pub fn wide_sum(a: u120, b: u120) -> u120
    requires { (a +ℤ b) <ℤ pos 1000 }
    ensures { result ≡ a +ℤ b }
{
    a.wrapping_add(b)
}

pub fn wide_signed_difference(a: i120, b: i120) -> Option<i120>
    ensures { a ≡ b → ¬ (IsNone result) }
{
    a.checked_sub(b)
}

pub fn by_ranges(x: u4) -> u8
    ensures { result ≤ 2 }
{
    match x.value() {
        0..=4 => 0,
        5..=9 => 1,
        _ => 2,
    }
}

//! Facts about sums, products, quotients and comparisons.

ghost use Rattle.std.specs.Prelude.{◌≡◌, ◌↔◌, ◌+ℤ◌, ◌-ℤ◌, ◌*ℤ◌, ◌≤ℤ◌, ◌<ℤ◌, not, true, pos, neg_ℤ, int_div, IsTrue};
ghost use Rattle.arbitrary_int.specs.Range.{in_range};
ghost use Rattle.arbitrary_int.specs.Residue.{Congruent};

use arbitrary_int::prelude::*;

pub fn wrapping_fits(a: u4, b: u4) -> u4
    requires { (a +ℤ b) ≤ℤ pos 15 }
    ensures { result ≡ a +ℤ b }
{
    a.wrapping_add(b)
}

pub fn wrapping_passes(a: u4, b: u4) -> u4
    requires { pos 16 ≤ℤ (a +ℤ b) }
    ensures { result ≡ a +ℤ b -ℤ pos 16 }
{
    a.wrapping_add(b)
}

pub fn saturating_ends(a: u4, b: u4) -> u4
    requires { pos 15 ≤ℤ (a +ℤ b) }
    ensures { result ≡ pos 15 }
{
    a.saturating_add(b)
}

pub fn saturating_is_above(a: i12, b: i12) -> i12
    requires { pos 0 ≤ℤ b }
    ensures { a ≤ℤ result }
{
    a.saturating_add(b)
}

pub fn checked_fits(a: u4, b: u4) -> bool
    ensures { IsTrue result ↔ ((a +ℤ b) ≤ℤ pos 15) }
{
    a.checked_add(b).is_some()
}

pub fn carry(a: u4, b: u4) -> bool
    ensures { IsTrue result ↔ (pos 16 ≤ℤ (a +ℤ b)) }
{
    a.overflowing_add(b).1
}

pub fn borrow(a: u4, b: u4) -> bool
    ensures { IsTrue result ↔ (a <ℤ b) }
{
    a.overflowing_sub(b).1
}

pub fn less_three(x: u4) -> u4
    ensures above { pos 3 <ℤ x → result ≡ x -ℤ pos 3 }
    ensures others { x ≤ℤ pos 3 → result ≡ x }
{
    if x > u4::new(3) { x - u4::new(3) } else { x }
}

pub fn back_and_forth(a: u12, b: u12) -> u12
    ensures { result ≡ a }
{
    a.wrapping_add(b).wrapping_sub(b)
}

/// Modulo 4096. That it is the same value as `a.wrapping_add(u12::new(2))` is not found.
#[tactic(auto, using(arbitrary_laws::proofs::Everyday::everyday))]
pub fn wrapping_twice(a: u12) -> u12
    ensures { Congruent 12 result (a +ℤ pos 2) }
{
    a.wrapping_add(u12::new(1)).wrapping_add(u12::new(1))
}

pub fn times_four(x: u4) -> u6
    ensures { result ≡ pos 4 *ℤ x }
{
    u6::from_(x) * u6::new(4)
}

pub fn widened_product(a: u4, b: u4) -> u8
    ensures { pos result ≡ a *ℤ b }
{
    a.value() * b.value()
}

pub fn difference(a: u12, b: u12) -> i13
    ensures { result ≡ a -ℤ b }
{
    i13::from_(a) - i13::from_(b)
}

pub fn halves(a: i12, b: i12) -> i12
    ensures { (pos 2 *ℤ result) ≤ℤ (a +ℤ b) }
{
    (a >> 1) + (b >> 1)
}

pub fn means(a: u12, b: u12) -> u12
    ensures { result ≡ int_div (a +ℤ b) (pos 2) }
{
    u12::new((a.value() + b.value()) / 2)
}

pub fn quotient(a: u12) -> u12
    ensures { result ≡ int_div a (pos 10) }
{
    a / u12::new(10)
}

pub fn absolute(x: i12) -> i12
    ensures positive { pos 0 ≤ℤ x → result ≡ x }
    ensures negative { neg_ℤ (pos 2048) <ℤ x → x <ℤ pos 0 → result ≡ neg_ℤ x }
{
    if x.is_negative() && x != i12::min_value() {
        -x
    } else {
        x
    }
}

// ---- of types with a sign

pub fn signed_quotient(x: i12) -> i12
    ensures { result ≡ int_div x (pos 10) }
{
    x / i12::new(10)
}

pub fn signed_product(a: i6, b: i6) -> i12
    ensures { result ≡ a *ℤ b }
{
    i12::from_(a) * i12::from_(b)
}

pub fn negated_twice(x: i12) -> i12
    ensures { result ≡ x }
{
    x.wrapping_neg().wrapping_neg()
}

pub fn negated(x: i12) -> i12
    requires { neg_ℤ (pos 2047) ≤ℤ x }
    ensures { result ≡ neg_ℤ x }
{
    x.wrapping_neg()
}

pub fn negated_is_not_below_zero(x: i12) -> i12
    requires { x ≤ℤ pos 0 }
    ensures { pos 0 ≤ℤ result }
{
    x.saturating_neg()
}

pub fn negation_overflows_at_the_least(x: i12) -> bool
    ensures { IsTrue result ↔ (x ≡ neg_ℤ (pos 2048)) }
{
    x.overflowing_neg().1
}

// ---- saturating, checked and overflowing

pub fn saturating_difference(a: u12, b: u12) -> u12
    requires { a ≤ℤ b }
    ensures { result ≡ pos 0 }
{
    a.saturating_sub(b)
}

pub fn saturating_product(a: u4, b: u4) -> u4
    requires { pos 15 ≤ℤ (a *ℤ b) }
    ensures { result ≡ pos 15 }
{
    a.saturating_mul(b)
}

pub fn checked_sum(a: i12, b: i12, other: i12) -> i12
    requires low { neg_ℤ (pos 2048) ≤ℤ (a +ℤ b) }
    requires high { (a +ℤ b) ≤ℤ pos 2047 }
    ensures { result ≡ a +ℤ b }
{
    match a.checked_add(b) {
        Some(sum) => sum,
        None => other,
    }
}

pub fn checked_difference(a: u12, b: u12) -> bool
    ensures { IsTrue result ↔ (b ≤ℤ a) }
{
    a.checked_sub(b).is_some()
}

pub fn checked_quotient(a: u12, b: u12) -> bool
    ensures { IsTrue result ↔ (b ≡ pos 0) }
{
    a.checked_div(b).is_none()
}

pub fn overflowing_fits(a: i12, b: i12) -> i12
    requires low { neg_ℤ (pos 2048) ≤ℤ (a -ℤ b) }
    requires high { (a -ℤ b) ≤ℤ pos 2047 }
    ensures { result ≡ a -ℤ b }
{
    a.overflowing_sub(b).0
}

/// A number of two digits: the low one, and the carry into the high one.
pub fn two_digits(a: u4, b: u4) -> u8
    ensures { pos result ≡ a +ℤ b }
{
    let (low, carry) = a.overflowing_add(b);
    low.value() + if carry { 16 } else { 0 }
}

// ---- counters

pub fn added_in_place(a: u12, b: u12) -> u12
    requires { (a +ℤ b) ≤ℤ pos 4095 }
    ensures { result ≡ a +ℤ b }
{
    let mut sum = a;
    sum += b;
    sum
}

pub fn scaled_in_place(a: i12) -> i12
    requires low { neg_ℤ (pos 200) ≤ℤ a }
    requires high { a ≤ℤ pos 200 }
    ensures { result ≡ pos 10 *ℤ a -ℤ pos 1 }
{
    let mut scaled = a;
    scaled *= i12::new(10);
    scaled -= i12::new(1);
    scaled
}

pub fn product_is_out_of_range(x: i12, y: i12) -> bool
    ensures { result ≡ not (in_range true 12 (x *ℤ y)) }
{
    x.overflowing_mul(y).1
}

pub fn negation_is_out_of_range<const BITS: usize>(x: Int<i32, BITS>) -> bool
    ensures { result ≡ not (in_range true BITS (neg_ℤ x.entry)) }
{
    x.overflowing_neg().1
}

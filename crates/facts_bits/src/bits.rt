//! Facts about fields, masks, shifts, rotations and counts.
//!
//! Users expect each of these facts. None has a proof of its own, so if one fails, a call lacks a clause. Do not
//! weaken it. `counts` has counts at their ends.

ghost use Rattle.std.specs.Prelude.{◌≡◌, ◌↔◌, ◌/◌, ◌%◌, ◌+ℤ◌, ◌-ℤ◌, ◌*ℤ◌, ◌≤ℤ◌, ◌<ℤ◌, pos, neg_ℤ, unsigned_abs, int_div, false, IsTrue};
ghost use Rattle.std.specs.Bool.{beq};
ghost use Rattle.std.specs.List.{count_by, suffix_len};
ghost use Rattle.std.specs.Int.Bits.{bit_or};
ghost use Rattle.arbitrary_int.specs.BitList.{bits};
ghost use Rattle.arbitrary_int.specs.Field.{field};

use arbitrary_int::prelude::*;

pub fn high_half(x: u8) -> u4
    ensures { result ≡ pos (x / 16) }
{
    u4::extract_u8(x, 4)
}

pub fn low_half(x: u8) -> u4
    ensures { result ≡ pos (x % 16) }
{
    u4::extract_u8(x, 0)
}

pub fn joined_by_or(x: u8) -> u8
    ensures { result ≡ x }
{
    let high = u4::extract_u8(x, 4);
    let low = u4::extract_u8(x, 0);
    (u8::from_(high) << 4) | u8::from_(low)
}

pub fn joined_by_value(x: u8) -> u8
    ensures { result ≡ x }
{
    let high = u4::new(x >> 4);
    let low = u4::new(x & 15);
    (high.value() << 4) | low.value()
}

pub fn joined_by_plus(x: u8) -> u8
    ensures { result ≡ x }
{
    let high = u4::extract_u8(x, 4);
    let low = u4::extract_u8(x, 0);
    (u8::from_(high) << 4) + u8::from_(low)
}

pub fn split_again(high: u4, low: u4) -> (u4, u4)
    ensures high { result.0 ≡ high }
    ensures low { result.1 ≡ low }
{
    let x = (u8::from_(high) << 4) + u8::from_(low);
    (u4::extract_u8(x, 4), u4::extract_u8(x, 0))
}

pub fn shifts_compose(x: u12) -> bool
    ensures { IsTrue result }
{
    (x << 1) << 2 == x << 3
}

pub fn right_shifts_compose(x: u12) -> bool
    ensures { IsTrue result }
{
    (x >> 1) >> 2 == x >> 3
}

pub fn right_shift_divides(x: u12) -> u12
    ensures { result ≡ int_div x (pos 16) }
{
    x >> 4
}

pub fn left_shift_fits(x: u12) -> u12
    requires { x <ℤ pos 256 }
    ensures { result ≡ pos 16 *ℤ x }
{
    x << 4
}

pub fn mask_is_small(x: u12) -> u12
    ensures { result <ℤ pos 16 }
{
    x & u12::new(15)
}

pub fn mask_is_below(x: u12, m: u12) -> u12
    ensures { result ≤ℤ x }
{
    x & m
}

pub fn complement(x: u12) -> u12
    ensures { result ≡ pos 4095 -ℤ x }
{
    !x
}

pub fn xor_itself(x: u12) -> u12
    ensures { result ≡ pos 0 }
{
    x ^ x
}

pub fn xor_twice(x: u12, y: u12) -> u12
    ensures { result ≡ x }
{
    (x ^ y) ^ y
}

pub fn rotated_back(x: u12) -> u12
    ensures { result ≡ x }
{
    x.rotate_left(5).rotate_right(5)
}

pub fn reversed_twice(x: u12) -> u12
    ensures { result ≡ x }
{
    x.reverse_bits().reverse_bits()
}

pub fn count_fits(x: u12) -> u4
    ensures { result ≡ pos (count_by (λ b. b) (bits 12 x)) }
{
    u4::new(x.count_ones() as u8)
}

pub fn zeros_fit(x: u12) -> u4
    ensures { result ≡ pos (suffix_len (beq false) (bits 12 x)) }
{
    u4::new(x.leading_zeros() as u8)
}

pub fn bit_test(x: u9) -> bool
    ensures { IsTrue result ↔ (x ≡ pos 0) }
{
    x & u9::max_value() == u9::new(0)
}

pub fn extracts_compose(x: u32) -> bool
    ensures { IsTrue result }
{
    u4::extract_u16(UInt::<u16, 16>::extract_u32(x, 8).value(), 4) == u4::extract_u32(x, 12)
}

/// Two fields, side by side in a type of their own width.
pub fn packed_narrow(high: u4, low: u8) -> u12
    ensures { result ≡ pos 256 *ℤ high +ℤ pos low }
{
    (u12::from_(high) << 8) | u12::from_(low)
}

pub fn three_by_plus(high: u6, middle: u5, low: u5) -> u16
    ensures { pos result ≡ pos 1024 *ℤ high +ℤ pos 32 *ℤ middle +ℤ low }
{
    (high.as_u16() << 10) + (middle.as_u16() << 5) + low.as_u16()
}

// Three fields by `|` want the library's rule, and `from_`.
#[tactic(auto, using(arbitrary_laws::proofs::Everyday::or_three))]
pub fn three_by_or(high: u6, middle: u5, low: u5) -> u16
    ensures { pos result ≡ pos 1024 *ℤ high +ℤ pos 32 *ℤ middle +ℤ low }
{
    (u16::from_(high) << 10) | (u16::from_(middle) << 5) | u16::from_(low)
}

#[tactic(auto, using(arbitrary_laws::proofs::Everyday::or_three))]
pub fn three_fields_again(x: u16) -> u16
    ensures { result ≡ x }
{
    let high = u6::extract_u16(x, 10);
    let middle = u5::extract_u16(x, 5);
    let low = u5::extract_u16(x, 0);
    (u16::from_(high) << 10) | (u16::from_(middle) << 5) | u16::from_(low)
}

pub fn field_by_name(x: u32) -> u5
    ensures { result ≡ field x 7 5 }
{
    u5::extract_u32(x, 7)
}

pub fn nibble(x: u12) -> u4
    ensures { result ≡ pos (unsigned_abs x / 16 % 16) }
{
    ((x >> 4) & u12::new(15)).as_::<u4>()
}

// ---- assigned

pub fn masked_in_place(x: u12) -> u12
    ensures { result <ℤ pos 16 }
{
    let mut low = x;
    low &= u12::new(15);
    low
}

pub fn moved_up_in_place(x: u12) -> u12
    requires { x <ℤ pos 256 }
    ensures { result ≡ pos 16 *ℤ x }
{
    let mut moved = x;
    moved <<= 4;
    moved
}

pub fn moved_down_in_place(x: u12) -> u12
    ensures { result ≡ int_div x (pos 16) }
{
    let mut moved = x;
    moved >>= 4;
    moved
}

pub fn packed_in_place(high: u4, low: u8) -> u12
    ensures { result ≡ pos 256 *ℤ high +ℤ pos low }
{
    let mut word = u12::from_(high);
    word <<= 8;
    word |= u12::from_(low);
    word
}

pub fn turned_over_and_back(x: u12, mask: u12) -> u12
    ensures { result ≡ x }
{
    let mut turned = x;
    turned ^= mask;
    turned ^= mask;
    turned
}

// ---- of types with a sign

pub fn signed_moved_down_in_place(x: i12) -> i12
    ensures low { (pos 16 *ℤ result) ≤ℤ x }
    ensures high { x <ℤ (pos 16 *ℤ result +ℤ pos 16) }
{
    let mut moved = x;
    moved >>= 4;
    moved
}

pub fn signed_moved_up_in_place(x: i12) -> i12
    requires low { neg_ℤ (pos 128) ≤ℤ x }
    requires high { x <ℤ pos 128 }
    ensures { result ≡ pos 16 *ℤ x }
{
    let mut moved = x;
    moved <<= 4;
    moved
}

pub fn signed_turned_over_and_back(x: i12, mask: i12) -> i12
    ensures { result ≡ x }
{
    let mut turned = x;
    turned ^= mask;
    turned ^= mask;
    turned
}

pub fn signed_masked_in_place(x: i12) -> i12
    ensures low { pos 0 ≤ℤ result }
    ensures high { result <ℤ pos 16 }
{
    let mut low = x;
    low &= i12::new(15);
    low
}

pub fn signed_joined_in_place(x: i12, more: i12) -> i12
    requires x { pos 0 ≤ℤ x }
    requires more { pos 0 ≤ℤ more }
    ensures { result ≡ pos (bit_or (unsigned_abs x) (unsigned_abs more)) }
{
    let mut joined = x;
    joined |= more;
    joined
}

/// Fields of a word with a sign: the low one is not below 0.
pub fn signed_halves(x: i16) -> (i8, u8)
    ensures { x ≡ pos 256 *ℤ result.0 +ℤ pos result.1 }
{
    (
        i8::from_(Int::<i8, 8>::extract_i16(x, 8)),
        u8::from_(UInt::<u8, 8>::extract_i16(x, 0)),
    )
}

pub fn signed_mask(x: i12) -> i12
    ensures low { pos 0 ≤ℤ result }
    ensures high { result <ℤ pos 16 }
{
    x & i12::new(15)
}

pub fn signed_complement(x: i12) -> i12
    ensures { result ≡ neg_ℤ x -ℤ pos 1 }
{
    !x
}

pub fn signed_xor_twice(x: i12, y: i12) -> i12
    ensures { result ≡ x }
{
    (x ^ y) ^ y
}

pub fn signed_left_shift_fits(x: i12) -> i12
    requires low { neg_ℤ (pos 128) ≤ℤ x }
    requires high { x <ℤ pos 128 }
    ensures { result ≡ pos 16 *ℤ x }
{
    x << 4
}

pub fn signed_right_shift(x: i12) -> i12
    ensures low { (pos 16 *ℤ result) ≤ℤ x }
    ensures high { x <ℤ (pos 16 *ℤ result +ℤ pos 16) }
{
    x >> 4
}

pub fn arithmetic_shift(x: i12) -> i12
    requires { x <ℤ pos 0 }
    ensures { result <ℤ pos 0 }
{
    x.wrapping_shr(11)
}

// ---- checked and overflowing shifts

pub fn checked_shift_fits(x: u12, other: u12) -> u12
    requires { x <ℤ pos 256 }
    ensures { result ≡ pos 16 *ℤ x }
{
    match x.checked_shl(4) {
        Some(shifted) => shifted,
        None => other,
    }
}

pub fn checked_right_shift(x: u12, other: u12) -> u12
    ensures { result ≡ int_div x (pos 16) }
{
    match x.checked_shr(4) {
        Some(shifted) => shifted,
        None => other,
    }
}

pub fn overflowing_shift_turns_over(x: u12) -> u12
    ensures { result ≡ int_div x (pos 2) }
{
    x.overflowing_shr(13).0
}

// ---- rotations and counts

pub fn rotated_forth(x: i12, amount: u32) -> i12
    ensures { result ≡ x }
{
    x.rotate_right(amount).rotate_left(amount)
}

pub fn signed_reversed_twice(x: i9) -> i9
    ensures { result ≡ x }
{
    x.reverse_bits().reverse_bits()
}

pub fn ones_and_zeros(x: i12) -> u32
    ensures { result ≡ 12 }
{
    x.count_ones() + x.count_zeros()
}

pub fn table_by_count(table: &[u8; 13], x: u12) -> u8 {
    table[x.trailing_ones() as usize]
}

pub fn four_by_plus(a: u4, b: u4, c: u4, d: u4) -> u16
    ensures { pos result ≡ pos 4096 *ℤ a +ℤ pos 256 *ℤ b +ℤ pos 16 *ℤ c +ℤ d }
{
    (a.as_u16() << 12) + (b.as_u16() << 8) + (c.as_u16() << 4) + d.as_u16()
}

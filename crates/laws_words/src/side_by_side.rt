//! Fields joined by `|`.
#![tactic(auto, using(arbitrary_laws::proofs::fields::JoinedWords::joined_words))]

ghost use Rattle.std.specs.Prelude.{◌≡◌, ◌*◌, ◌+◌, ◌/◌, ◌+ℤ◌, ◌*ℤ◌, pos};
ghost use Rattle.arbitrary_int.specs.Residue.{Congruent};

use arbitrary_int::prelude::*;

pub fn from_three_bytes(high: u8, middle: u8, low: u8) -> u24
    ensures { result ≡ pos 65536 *ℤ pos high +ℤ pos 256 *ℤ pos middle +ℤ pos low }
{
    u24::new((u32::from(high) << 16) | (u32::from(middle) << 8) | u32::from(low))
}

pub fn signed_from_three_bytes(high: u8, middle: u8, low: u8) -> i24
    ensures { Congruent 24 result (pos (65536 * high + 256 * middle + low)) }
{
    i24::from_bits((u32::from(high) << 16) | (u32::from(middle) << 8) | u32::from(low))
}

pub fn colour_and_back(red: u5, green: u6, blue: u5) -> u6
    ensures { result ≡ green }
{
    let word = (u16::from_(red) << 11) | (u16::from_(green) << 5) | u16::from_(blue);
    u6::extract_u16(word, 5)
}

pub fn three_bytes(high: u8, middle: u8, low: u8) -> u24
    ensures { result ≡ pos (65536 * high + 256 * middle + low) }
{
    (u24::from_(high) << 16) | (u24::from_(middle) << 8) | u24::from_(low)
}

pub fn low_first(low: u8, middle: u8, high: u8) -> u32
    ensures { result ≡ low + 256 * middle + 65536 * high }
{
    u32::from(low) | (u32::from(middle) << 8) | (u32::from(high) << 16)
}

pub fn joined_of_its_bytes(x: u24) -> u24
    ensures { result ≡ x }
{
    let bytes = x.to_be_bytes();
    u24::new((u32::from(bytes[0]) << 16) | (u32::from(bytes[1]) << 8) | u32::from(bytes[2]))
}

pub fn highest_by_quotient(mode: u4, source: u6, target: u6) -> u16
    ensures { pos (result / 4096) ≡ mode }
{
    (u16::from_(mode) << 12) | (u16::from_(source) << 6) | u16::from_(target)
}

#[tactic(auto, using(arbitrary_laws::proofs::Sets::words))]
pub fn under_a_mark(high: u6, low: u8) -> u16
    ensures { pos result ≡ pos 32768 +ℤ pos 256 *ℤ high +ℤ pos low }
{
    0x8000 | (u16::from_(high) << 8) | u16::from(low)
}

#[tactic(auto, using(arbitrary_laws::proofs::fields::JoinedFields::joined_fields))]
pub fn four_in_their_own_type(a: u3, b: u6, c: u6, d: u6) -> u21
    ensures { result ≡ pos 262144 *ℤ a +ℤ pos 4096 *ℤ b +ℤ pos 64 *ℤ c +ℤ d }
{
    (u21::from_(a) << 18) | (u21::from_(b) << 12) | (u21::from_(c) << 6) | u21::from_(d)
}

#[tactic(auto, using(arbitrary_laws::proofs::fields::JoinedFields::five_fields))]
pub fn five_in_their_own_type(a: u7, b: u5, c: u5, d: u3, e: u12) -> u48
    ensures { result ≡ pos 33554432 *ℤ a +ℤ pos 1048576 *ℤ b +ℤ pos 32768 *ℤ c +ℤ pos 4096 *ℤ d
        +ℤ e }
{
    (u48::from_(a) << 25)
        | (u48::from_(b) << 20)
        | (u48::from_(c) << 15)
        | (u48::from_(d) << 12)
        | u48::from_(e)
}

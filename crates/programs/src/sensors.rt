//! Filters, distances, places in lists and counts of bits.

ghost use Rattle.std.specs.Prelude.{◌≡◌, ◌<◌, ◌≤◌, ◌/◌, ◌+ℤ◌, ◌-ℤ◌, ◌*ℤ◌, ◌≤ℤ◌, ◌<ℤ◌, pos, neg_ℤ, int_div, IsTrue, IfSome, length};
ghost use Rattle.arbitrary_int.specs.Residue.{Congruent};

use arbitrary_int::prelude::*;

pub fn smoothed(level: i12, sample: i12) -> i12
    ensures low { (pos 4 *ℤ result) ≤ℤ (pos 3 *ℤ level +ℤ sample) }
    ensures high { (pos 3 *ℤ level +ℤ sample) <ℤ (pos 4 *ℤ result +ℤ pos 4) }
{
    i12::from_((i14::from_(level) * i14::new(3) + i14::from_(sample)) >> 2)
}

pub fn apart_by_max(a: u24, b: u24) -> u24
    ensures { b ≤ℤ a → result ≡ a -ℤ b }
{
    a.max(b) - a.min(b)
}

pub fn least_of_three(a: u5, b: u5, c: u5) -> u5
    ensures first { result ≤ℤ a }
    ensures second { result ≤ℤ b }
    ensures third { result ≤ℤ c }
{
    a.min(b).min(c)
}

pub fn greatest(list: &[u5]) -> u5 {
    let mut greatest = u5::new(0);
    for x in list {
        greatest = greatest.max(*x);
    }
    greatest
}

pub fn place_of(list: &[u5], wanted: u5) -> Option<usize>
    ensures { IfSome result (λ place. place < length list.now) }
{
    for place in 0..list.len() {
        if list[place] == wanted {
            return Some(place);
        }
    }
    None
}

pub fn has(list: &[u5], wanted: u5) -> bool {
    for x in list {
        if *x == wanted {
            return true;
        }
    }
    false
}

pub fn wide_of_saturated(a: i12, b: i12) -> i24
    ensures { result ≤ℤ pos 4094 }
{
    i24::from_(a.saturating_add(b)) * i24::new(2)
}

pub fn entry_of_saturated(table: &[u8; 32], a: u5, b: u5) -> u8 {
    table[a.saturating_sub(b).as_usize()]
}

pub fn temperature(raw: u14) -> i32
    ensures low { neg_ℤ (pos 40) ≤ℤ result }
    ensures high { result ≤ℤ pos 125 }
{
    i32::from_(raw) * 165 / 16383 - 40
}

pub fn mean_of_four(a: u10, b: u10, c: u10, d: u10) -> u10
    ensures { result ≡ int_div (a +ℤ b +ℤ c +ℤ d) (pos 4) }
{
    u10::from_((u12::from_(a) + u12::from_(b) + u12::from_(c) + u12::from_(d)) >> 2)
}

pub fn small_product(a: u12, b: u12) -> u12
    requires a { a ≤ℤ pos 60 }
    requires b { b ≤ℤ pos 60 }
    ensures { result ≡ a *ℤ b }
{
    a * b
}

pub fn newer(from: u24, to: u24) -> bool
    requires ahead { from <ℤ to }
    requires near { (to -ℤ from) <ℤ pos 8388608 }
    ensures { IsTrue result }
{
    to.wrapping_sub(from).as_::<i24>() > i24::new(0)
}

pub fn delayed(line: [u10; 3], sample: u10) -> [u10; 3] {
    [line[1], line[2], sample]
}

pub fn highest_place(x: i48) -> u32
    requires { pos 0 <ℤ x }
    ensures { result ≤ 46 }
{
    47 - x.leading_zeros()
}

pub fn product_of_fractions(a: i12, b: i12) -> i24
    ensures low { (pos 2048 *ℤ result) ≤ℤ (a *ℤ b) }
    ensures high { (a *ℤ b) <ℤ (pos 2048 *ℤ result +ℤ pos 2048) }
{
    (i24::from_(a) * i24::from_(b)) >> 11
}

pub fn scaled_by_parts_of_128(x: u9, parts: u7) -> u16
    ensures { pos result ≡ int_div (x *ℤ parts) (pos 128) }
{
    (u16::from_(x) * u16::from_(parts)) >> 7
}

pub fn sign_extended_by_shifts(x: u9) -> i16
    ensures { x <ℤ pos 256 → result ≡ x }
{
    ((x.value() << 7).cast_signed()) >> 7
}

// ---- signed samples in the bits of a wider word

pub fn low_sample(word: u32) -> i12
    ensures { Congruent 12 result (pos word) }
{
    i12::from_bits((word & 0xFFF) as u16)
}

pub fn high_sample(word: u32) -> i12
    ensures { Congruent 12 result (pos (word / 16)) }
{
    i12::from_bits(((word >> 4) & 0xFFF) as u16)
}

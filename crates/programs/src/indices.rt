//! Indices, conversions between types, and comparisons.

ghost use Rattle.std.specs.Prelude.{◌≡◌, ◌/◌, ◌%◌, ◌<◌, ◌≤◌, ◌+ℤ◌, ◌-ℤ◌, ◌*ℤ◌, ◌≤ℤ◌, pos, neg_ℤ, int_div};

use arbitrary_int::prelude::*;

pub fn row_and_column(board: &[[u8; 8]; 8], row: u3, column: u3) -> u8 {
    board[row.as_usize()][column.as_usize()]
}

pub fn flat_index(board: &[u8; 64], row: u3, column: u3) -> u8 {
    board[row.as_usize() * 8 + column.as_usize()]
}

pub fn flat_index_by_shift(board: &[u8; 64], row: u3, column: u3) -> u8 {
    board[(row.as_usize() << 3) | column.as_usize()]
}

pub fn store_at(table: &mut [u8; 32], place: u5, value: u8) {
    table[place.as_usize()] = value;
}

pub fn address(page: u4, offset: u8) -> u12
    ensures { result ≡ pos 256 *ℤ page +ℤ pos offset }
{
    (page.as_::<u12>() << 8) | offset.as_::<u12>()
}

pub fn page_of(address: u12) -> u4
    ensures { result ≡ int_div address (pos 256) }
{
    (address >> 8).as_::<u4>()
}

pub fn sign_extended_from_u16(raw: u16) -> i16
    requires { raw < 4096 }
    ensures small { raw < 2048 → result ≡ pos raw }
    ensures large { 2048 ≤ raw → result ≡ pos raw -ℤ pos 4096 }
{
    i12::from_bits(raw).value()
}

pub fn sign_extended_by_extract(raw: u16) -> i32
    ensures small { raw % 4096 < 2048 → result ≡ pos (raw % 4096) }
    ensures large { 2048 ≤ raw % 4096 → result ≡ pos (raw % 4096) -ℤ pos 4096 }
{
    i32::from_(i12::extract_u16(raw, 0))
}

pub fn left_aligned_sample(raw: u16) -> i12
    requires { raw < 32768 }
    ensures { result ≡ pos (raw / 16) }
{
    i12::extract_u16(raw, 4)
}

pub fn held_between(x: i24) -> i24
    ensures low { neg_ℤ (pos 1000) ≤ℤ result }
    ensures high { result ≤ℤ pos 1000 }
{
    if x > i24::new(1000) {
        i24::new(1000)
    } else if x < i24::new(-1000) {
        i24::new(-1000)
    } else {
        x
    }
}

pub fn narrowed_after_test(x: i24) -> i12
    requires low { neg_ℤ (pos 2048) ≤ℤ x }
    requires high { x ≤ℤ pos 2047 }
    ensures { result ≡ x }
{
    i12::from_(x)
}

pub fn narrowed_or_clamped(x: i24) -> i12
    ensures { pos 2047 ≤ℤ x → result ≡ pos 2047 }
{
    match i12::try_new(i16::from_(x.as_::<i12>())) {
        Ok(y) if i24::from_(y) == x => y,
        _ => if x.is_negative() {
            i12::min_value()
        } else {
            i12::max_value()
        },
    }
}

pub fn high_half_of_wide(x: u120) -> u60
    ensures { result ≡ int_div x (pos 1152921504606846976) }
{
    (x >> 60).as_::<u60>()
}

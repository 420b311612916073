//! The conditions of calls, and how a caller proves them.

ghost use Rattle.std.specs.Prelude.{◌≡◌, ◌+ℤ◌, ◌≤ℤ◌, ◌<ℤ◌, ◌%◌, pos, int_div};
ghost use Rattle.arbitrary_int.specs.Residue.{Congruent};

use arbitrary_int::prelude::*;

/// The low half of a byte.
pub fn low_half(byte: u8) -> u4
    ensures { result ≡ pos (byte % 16) }
{
    u4::new(byte & 15)
}

/// The level in a byte, if it fits in 4 bits.
pub fn level(byte: u8) -> Option<u4> {
    if byte < 16 { Some(u4::new(byte)) } else { None }
}

/// The level that a byte says, or why there is none.
pub fn read_level(byte: u8) -> Result<u4, TryNewError> {
    u4::try_new(byte)
}

/// The word as a signed number, with the same bits.
pub fn signed_word(word: u32) -> i32
    ensures { Congruent 32 result (pos word) }
{
    word.as_i32()
}

/// The sum of two samples that are known to be small.
pub fn sum(a: u12, b: u12) -> u12
    requires { (a +ℤ b) <ℤ pos 4096 }
    ensures { result ≡ a +ℤ b }
{
    a + b
}

/// The next count, which stays at the maximum.
pub fn next(count: u12) -> u12 {
    if count < u12::max_value() {
        count + u12::new(1)
    } else {
        count
    }
}

/// The sum of two samples, in a type that has room for it.
pub fn wide_sum(a: u12, b: u12) -> u13
    ensures { result ≡ a +ℤ b }
{
    u13::from_(a) + u13::from_(b)
}

/// The magnitude of a sample.
pub fn magnitude(sample: i12) -> i13 {
    let wide = i13::from_(sample);
    if sample.is_negative() { -wide } else { wide }
}

/// The entry of a table that has one for each place.
pub fn entry(table: &[u8; 16], place: u4) -> u8 {
    table[usize::from(place.value())]
}

/// The entry of a shorter table, if there is one.
pub fn entry_of_ten(table: &[u8; 10], place: u4) -> Option<u8> {
    table.get(usize::from(place.value())).copied()
}

/// The mean, and `None` of nothing.
pub fn mean(total: u12, count: u12) -> Option<u12> {
    total.checked_div(count)
}

/// The mean of a signed total.
pub fn signed_mean(total: i12, count: i12) -> Option<i12> {
    if count > i12::new(0) {
        Some(total / count)
    } else {
        None
    }
}

/// The mean of two numbers, toward 0.
pub fn middle(left: i12, right: i12) -> i12
    ensures { result ≡ int_div (left +ℤ right) (pos 2) }
{
    i12::from_((i13::from_(left) + i13::from_(right)) / i13::new(2))
}

/// The number shifted left, and 0 if no bit is left.
pub fn moved(number: u12, places: u8) -> u12 {
    if places < 12 {
        number << places
    } else {
        u12::new(0)
    }
}

/// A nibble of a word.
pub fn nibble(word: u32, index: u3) -> u4 {
    u4::extract_u32(word, usize::from(index.value()) * 4)
}

//! Operations on patterns. The pattern of a list of `width` bits, lowest bit first, is the unsigned number that it
//! represents, which is below `2 ^ width`. `bitwise` and the calls on bits of both types (`calls` of
//! `arbitrary_calls`) use these. `shifts` has shifts, which depend on the sign.

ghost use Rattle.std.specs.Prelude.{◌≡◌, ◌≤◌, ◌<◌, ◌%◌, ◌^◌, ◌++◌, pos, false, true, reverse, map, not, drop, take};
ghost use Rattle.std.specs.Bool.{beq};
ghost use Rattle.std.specs.List.{slice_rotate_right, count_by, prefix_len, suffix_len};
ghost use Rattle.std.specs.Int.{w64, w128, reverse_bits as reversed};
ghost use Rattle.arbitrary_base.specs.BitList.{bits, num, bits_and, bits_or, bits_xor};

use crate::shifts;
use crate::truncation::low_mask;

/// The bits that are one in both patterns.
pub fn and(left: u128, right: u128, width: usize) -> u128
    requires left_fits { left < 2 ^ width }
    requires right_fits { right < 2 ^ width }
    ensures { result ≡ num (bits_and (bits width (pos left)) (bits width (pos right))) }
{
    left & right
}

/// The bits that are one in at least one of the patterns.
pub fn or(left: u128, right: u128, width: usize) -> u128
    requires left_fits { left < 2 ^ width }
    requires right_fits { right < 2 ^ width }
    ensures { result ≡ num (bits_or (bits width (pos left)) (bits width (pos right))) }
{
    left | right
}

/// The bits in which the patterns differ.
pub fn xor(left: u128, right: u128, width: usize) -> u128
    requires left_fits { left < 2 ^ width }
    requires right_fits { right < 2 ^ width }
    ensures { result ≡ num (bits_xor (bits width (pos left)) (bits width (pos right))) }
{
    left ^ right
}

/// The complement: each of the `width` bits is inverted.
pub fn not(pattern: u128, width: usize) -> u128
    requires high { width ≤ 128 }
    requires fits { pattern < 2 ^ width }
    ensures { result ≡ num (map not (bits width (pos pattern))) }
{
    pattern ^ low_mask(width)
}

/// The bits rotated left by `amount` modulo `width`. Bits that leave the high end come in at the
/// low end.
// Below 128 bits a rotation by 0 needs no case of its own: all bits are shifted out of the other part.
pub fn rotate_left(pattern: u128, width: usize, amount: u32) -> u128
    requires low { 1 ≤ width }
    requires high { width ≤ 128 }
    requires fits { pattern < 2 ^ width }
    ensures { result ≡ num (slice_rotate_right (bits width (pos pattern)) (amount % width)) }
{
    let places = shifts::places(amount, width);
    if width == 128 && places == 0 {
        pattern
    } else {
        ((pattern << places) & low_mask(width)) | (pattern >> (width - places))
    }
}

/// The bits rotated right by `amount` modulo `width`. Bits that leave the low end come in at the
/// high end.
// Below 128 bits a rotation by 0 needs no case of its own: all bits are shifted out of the other part.
pub fn rotate_right(pattern: u128, width: usize, amount: u32) -> u128
    requires low { 1 ≤ width }
    requires high { width ≤ 128 }
    requires fits { pattern < 2 ^ width }
    ensures { let list = bits width (pos pattern) in let places = amount % width in
        result ≡ num (drop places list ++ take places list) }
{
    let places = shifts::places(amount, width);
    if width == 128 && places == 0 {
        pattern
    } else {
        (pattern >> places) | ((pattern << (width - places)) & low_mask(width))
    }
}

/// The result of `u64::reverse_bits`, from the two halves. std's body for 32 bits compiles to a
/// byte swap and a few masks, and its body for 64 bits to a loop over the bits.
fn reverse_u64(x: u64) -> u64
    ensures { result ≡ reversed w64 x }
{
    let low = (x & 0xffff_ffff) as u32;
    let high = (x >> 32) as u32;
    ((low.reverse_bits() as u64) << 32) | high.reverse_bits() as u64
}

/// The result of `u128::reverse_bits`, from the two halves.
fn reverse_u128(x: u128) -> u128
    ensures { result ≡ reversed w128 x }
{
    let low = (x & 0xffff_ffff_ffff_ffff) as u64;
    let high = (x >> 64) as u64;
    ((reverse_u64(low) as u128) << 64) | reverse_u64(high) as u128
}

/// The `width` bits in reverse order.
// It reverses the smallest primitive that holds the pattern, and then shifts right. At 8 bits it shifts left first, so that the
// compiler drops a mask.
pub fn reverse_bits(pattern: u128, width: usize) -> u128
    requires low { 1 ≤ width }
    requires high { width ≤ 128 }
    requires fits { pattern < 2 ^ width }
    ensures { result ≡ num (reverse (bits width (pos pattern))) }
{
    if width <= 8 {
        ((pattern as u8) << (8 - width)).reverse_bits() as u128
    } else if width <= 16 {
        ((pattern as u16).reverse_bits() >> (16 - width)) as u128
    } else if width <= 32 {
        ((pattern as u32).reverse_bits() >> (32 - width)) as u128
    } else if width <= 64 {
        (reverse_u64(pattern as u64) >> (64 - width)) as u128
    } else {
        reverse_u128(pattern) >> (128 - width)
    }
}

/// The number of ones.
pub fn count_ones(pattern: u128, width: usize) -> u32
    requires fits { pattern < 2 ^ width }
    ensures { result ≡ count_by (λ b. b) (bits width (pos pattern)) }
{
    pattern.count_ones()
}

/// The number of zeros at the low end: `width` if no bit is one.
pub fn trailing_zeros(pattern: u128, width: usize) -> u32
    requires high { width ≤ 128 }
    requires fits { pattern < 2 ^ width }
    ensures { result ≡ prefix_len (beq false) (bits width (pos pattern)) }
{
    pattern.trailing_zeros().min(width as u32)
}

/// The number of ones at the low end: `width` if no bit is zero.
pub fn trailing_ones(pattern: u128, width: usize) -> u32
    requires high { width ≤ 128 }
    requires fits { pattern < 2 ^ width }
    ensures { result ≡ prefix_len (beq true) (bits width (pos pattern)) }
{
    trailing_zeros(not(pattern, width), width)
}

/// The number of zeros at the high end of the `width` bits.
pub fn leading_zeros(pattern: u128, width: usize) -> u32
    requires high { width ≤ 128 }
    requires fits { pattern < 2 ^ width }
    ensures { result ≡ suffix_len (beq false) (bits width (pos pattern)) }
{
    pattern.leading_zeros() - (128 - width as u32)
}

/// The number of ones at the high end of the `width` bits.
pub fn leading_ones(pattern: u128, width: usize) -> u32
    requires high { width ≤ 128 }
    requires fits { pattern < 2 ^ width }
    ensures { result ≡ suffix_len (beq true) (bits width (pos pattern)) }
{
    leading_zeros(not(pattern, width), width)
}

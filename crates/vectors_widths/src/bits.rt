//! Shifts, rotations, reversal, counts, the bitwise operators and extraction, bit by bit.

use crate::operands::{number, patterns, width};
use arbitrary_int::prelude::*;

/// The bit at a place.
fn bit(pattern: u128, place: u32) -> bool {
    pattern.wrapping_shr(place) & 1 == 1
}

/// The number of `bits` bits that the call `name` gives, one bit after the other.
fn moved(name: &str, pattern: u128, amount: u32, bits: u32, signed: bool) -> u128 {
    let places = amount.checked_rem(bits).unwrap_or(0);
    let rest = bits.wrapping_sub(places);
    let mut result = 0;
    for at in 0..bits {
        let is_one = match name {
            "shl" => places <= at && bit(pattern, at.wrapping_sub(places)),
            "shr" if at < rest => bit(pattern, at.wrapping_add(places)),
            "shr" => signed && bit(pattern, bits.wrapping_sub(1)),
            "rotate_left" if at < places => bit(pattern, at.wrapping_add(rest)),
            "rotate_left" => bit(pattern, at.wrapping_sub(places)),
            "rotate_right" if at < rest => bit(pattern, at.wrapping_add(places)),
            "rotate_right" => bit(pattern, at.wrapping_sub(rest)),
            "reverse" => bit(pattern, bits.wrapping_sub(1).wrapping_sub(at)),
            _ => !bit(pattern, at),
        };
        if is_one {
            result |= 1u128.wrapping_shl(at);
        }
    }
    number(result, bits, signed)
}

/// How many bits from an end on are `wanted`.
fn run_of(pattern: u128, bits: u32, wanted: bool, from_the_top: bool) -> u32 {
    let mut count = 0u32;
    for at in 0..bits {
        let place = if from_the_top {
            bits.wrapping_sub(1).wrapping_sub(at)
        } else {
            at
        };
        if bit(pattern, place) != wanted {
            return count;
        }
        count = count.wrapping_add(1);
    }
    count
}

/// How many bits are one.
fn popcount(pattern: u128, bits: u32) -> u32 {
    let mut count = 0u32;
    for at in 0..bits {
        if bit(pattern, at) {
            count = count.wrapping_add(1);
        }
    }
    count
}

/// Whether one of the three calls that shift, by an amount of the width or more where it is `$past`, gives another result.
macro_rules! shifts_differ {
    ($a:ident, $amount:ident, $moved:ident, $past:ident: $wrapping:ident $checked:ident $overflowing:ident) => {{
        let (shifted, is_past) = $a.$overflowing($amount);
        let checked = $a.$checked($amount).map(|v| v.to_u128_bits());
        $a.$wrapping($amount).to_u128_bits() != $moved
            || (shifted.to_u128_bits(), is_past) != ($moved, $past)
            || checked != (if $past { None } else { Some($moved) })
    }};
}

fn shl_differs<V: ShiftCalls>(a: V, amount: u32, moved: u128, past: bool) -> bool {
    shifts_differ!(a, amount, moved, past: wrapping_shl checked_shl overflowing_shl)
}

fn shr_differs<V: ShiftCalls>(a: V, amount: u32, moved: u128, past: bool) -> bool {
    shifts_differ!(a, amount, moved, past: wrapping_shr checked_shr overflowing_shr)
}

/// The first call by an amount that is wrong.
fn first_wrong_by<V: ShiftCalls>(a: V, amount: u32) -> Option<&'static str> {
    let (bits, signed) = (width(a), V::IS_SIGNED);
    let pattern = a.to_u128_bits();
    let past = bits <= amount;
    if shl_differs(a, amount, moved("shl", pattern, amount, bits, signed), past) {
        return Some("shl");
    }
    if shr_differs(a, amount, moved("shr", pattern, amount, bits, signed), past) {
        return Some("shr");
    }
    if a.rotate_left(amount).to_u128_bits() != moved("rotate_left", pattern, amount, bits, signed) {
        return Some("rotate_left");
    }
    if a.rotate_right(amount).to_u128_bits()
        != moved("rotate_right", pattern, amount, bits, signed)
    {
        return Some("rotate_right");
    }
    None
}

/// The first call on one value that is wrong.
fn first_wrong_of_one<V: Integer + ShiftCalls + CountCalls>(a: V) -> Option<&'static str> {
    let (bits, signed) = (width(a), V::IS_SIGNED);
    let pattern = a.to_u128_bits();
    if a.reverse_bits().to_u128_bits() != moved("reverse", pattern, 0, bits, signed) {
        return Some("reverse_bits");
    }
    if (!a).to_u128_bits() != moved("not", pattern, 0, bits, signed) {
        return Some("not");
    }
    let popcount = popcount(pattern, bits);
    if (a.count_ones(), a.count_zeros()) != (popcount, bits.wrapping_sub(popcount)) {
        return Some("count_ones, count_zeros");
    }
    let leading = (
        run_of(pattern, bits, true, true),
        run_of(pattern, bits, false, true),
    );
    if (a.leading_ones(), a.leading_zeros()) != leading {
        return Some("leading_ones, leading_zeros");
    }
    let trailing = (
        run_of(pattern, bits, true, false),
        run_of(pattern, bits, false, false),
    );
    if (a.trailing_ones(), a.trailing_zeros()) != trailing {
        return Some("trailing_ones, trailing_zeros");
    }
    None
}

/// The first bitwise operator that is wrong.
fn first_wrong_of_two<V: Integer>(a: V, b: V) -> Option<&'static str> {
    let (x, y) = (a.to_u128_bits(), b.to_u128_bits());
    if (a & b).to_u128_bits() != x & y {
        return Some("and");
    }
    if (a | b).to_u128_bits() != x | y {
        return Some("or");
    }
    if (a ^ b).to_u128_bits() != x ^ y {
        return Some("xor");
    }
    None
}

/// Whether a source of `$width` bits, of both signs, gives other bits at its first or last place than shifts and masks do.
macro_rules! differs {
    ($width:literal, $unsigned:ty, $from_unsigned:ident, $from_signed:ident, $bits:expr, $signed:expr, $source:expr) => {
        if V::BITS <= $width {
            let last = $width - V::BITS;
            let low = <$unsigned>::masked_new($source);
            let places = u32::try_from(last).unwrap_or(0);
            let at_first = number($source, $bits, $signed);
            let at_last = number(u128::from_(low).wrapping_shr(places), $bits, $signed);
            V::$from_unsigned(low, 0).to_u128_bits() != at_first
                || V::$from_signed(low.cast_signed(), 0).to_u128_bits() != at_first
                || V::$from_unsigned(low, last).to_u128_bits() != at_last
                || V::$from_signed(low.cast_signed(), last).to_u128_bits() != at_last
        } else {
            false
        }
    };
}

/// The first extraction that is wrong, of sources that have room.
fn first_wrong_extraction<V: Extraction>(sample: V, source: u128) -> Option<&'static str> {
    let _ = sample.to_u128_bits();
    let (bits, signed) = (width(sample), V::IS_SIGNED);
    if differs!(128, u128, extract_u128, extract_i128, bits, signed, source) {
        return Some("extract_u128");
    }
    if differs!(64, u64, extract_u64, extract_i64, bits, signed, source) {
        return Some("extract_u64");
    }
    if differs!(32, u32, extract_u32, extract_i32, bits, signed, source) {
        return Some("extract_u32");
    }
    if differs!(16, u16, extract_u16, extract_i16, bits, signed, source) {
        return Some("extract_u16");
    }
    if differs!(8, u8, extract_u8, extract_i8, bits, signed, source) {
        return Some("extract_u8");
    }
    None
}

/// The first call that is wrong on any operand of this type.
pub fn wrong<V: Integer + ShiftCalls + CountCalls + Extraction>(sample: V) -> Option<&'static str> {
    let _ = sample.to_u128_bits();
    let bits = width(sample);
    let operands = patterns(bits);
    let amounts = [
        0,
        1,
        bits.wrapping_sub(1),
        bits,
        bits.wrapping_add(1),
        u32::MAX,
    ];
    for x in operands {
        let a = V::from_u128_bits(x);
        if let Some(name) = first_wrong_of_one(a) {
            return Some(name);
        }
        if let Some(name) = first_wrong_extraction(sample, x) {
            return Some(name);
        }
        for amount in amounts {
            if let Some(name) = first_wrong_by(a, amount) {
                return Some(name);
            }
        }
        for y in operands {
            if let Some(name) = first_wrong_of_two(a, V::from_u128_bits(y)) {
                return Some(name);
            }
        }
    }
    None
}

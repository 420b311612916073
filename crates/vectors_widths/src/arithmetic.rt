//! The four families of arithmetic, on each pair of operands.

ghost use Rattle.std.specs.Prelude.{◌≢◌, pos};

use crate::operands::{number, patterns, width};
use arbitrary_int::prelude::*;

/// The exact result of `name` on two numbers of 128 bits, as a pattern, and whether a type of `bits`
/// bits has it. Only the primitives' own calls are asked.
pub fn exact(name: &str, x: u128, y: u128, bits: u32, signed: bool) -> (u128, bool) {
    let (pattern, lost) = if signed {
        let (a, b) = (x.cast_signed(), y.cast_signed());
        let (result, lost) = match name {
            "add" => a.overflowing_add(b),
            "sub" => a.overflowing_sub(b),
            "mul" => a.overflowing_mul(b),
            _ => match a.checked_div(b) {
                Some(quotient) => (quotient, false),
                None => (a, true),
            },
        };
        (result.cast_unsigned(), lost)
    } else {
        match name {
            "add" => x.overflowing_add(y),
            "sub" => x.overflowing_sub(y),
            "mul" => x.overflowing_mul(y),
            _ => match x.checked_div(y) {
                Some(quotient) => (quotient, false),
                None => (x, true),
            },
        }
    };
    (pattern, !lost && number(pattern, bits, signed) == pattern)
}

/// Whether the exact result is below 0.
fn is_below_zero(name: &str, x: u128, y: u128, signed: bool) -> bool {
    let (a, b) = (x.cast_signed() < 0, y.cast_signed() < 0);
    match name {
        "sub" if !signed => x < y,
        _ if !signed => false,
        "add" => a && b || (a || b) && x.wrapping_add(y).cast_signed() < 0,
        "sub" => a && !b || a == b && x.wrapping_sub(y).cast_signed() < 0,
        _ => a != b,
    }
}

/// What the four calls of a family gave, extended to 128 bits.
#[derive(Drop)]
struct Results {
    name: &'static str,
    wrapping: u128,
    saturating: u128,
    checked: Option<u128>,
    overflowing: (u128, bool),
}

impl Results {
    /// Whether they are those of the exact result at this width. Results that clamp end at `least` and `greatest`.
    fn are_right(&self, x: u128, y: u128, bits: u32, least: u128, greatest: u128) -> bool {
        // the least number of a type with a sign is below 0
        let signed = least != 0;
        let (pattern, fits) = exact(self.name, x, y, bits, signed);
        let end = if is_below_zero(self.name, x, y, signed) {
            least
        } else {
            greatest
        };
        let wrapped = number(pattern, bits, signed);
        self.wrapping == wrapped
            && self.overflowing == (wrapped, !fits)
            && self.saturating == (if fits { pattern } else { end })
            && self.checked == (if fits { Some(pattern) } else { None })
    }
}

/// The results of the four calls of a family.
macro_rules! results {
    ($name:literal, $a:ident, $b:ident: $wrapping:ident $saturating:ident $checked:ident $overflowing:ident) => {{
        let (low, overflow) = $a.$overflowing($b);
        Results {
            name: $name,
            wrapping: $a.$wrapping($b).to_u128_bits(),
            saturating: $a.$saturating($b).to_u128_bits(),
            checked: $a.$checked($b).map(|v| v.to_u128_bits()),
            overflowing: (low.to_u128_bits(), overflow),
        }
    }};
}

fn sums<V: SumCalls>(a: V, b: V) -> Results {
    results!("add", a, b: wrapping_add saturating_add checked_add overflowing_add)
}

fn differences<V: SumCalls>(a: V, b: V) -> Results {
    results!("sub", a, b: wrapping_sub saturating_sub checked_sub overflowing_sub)
}

fn products<V: ProductCalls>(a: V, b: V) -> Results {
    results!("mul", a, b: wrapping_mul saturating_mul checked_mul overflowing_mul)
}

fn quotients<V: ProductCalls>(a: V, b: V) -> Results
    requires { V.number b ≢ pos 0 }
{
    results!("div", a, b: wrapping_div saturating_div checked_div overflowing_div)
}

/// The first family whose results are not those of the exact result. A checked quotient by zero is refused.
fn first_wrong<V: Integer + SumCalls + ProductCalls>(a: V, b: V) -> Option<&'static str> {
    let (x, y, bits) = (a.to_u128_bits(), b.to_u128_bits(), width(a));
    let (least, greatest) = (V::min_value().to_u128_bits(), V::max_value().to_u128_bits());
    for family in [sums(a, b), differences(a, b), products(a, b)] {
        if !family.are_right(x, y, bits, least, greatest) {
            return Some(family.name);
        }
    }
    if b == V::zero() {
        return if a.checked_div(b).is_none() {
            None
        } else {
            Some("div by zero")
        };
    }
    if quotients(a, b).are_right(x, y, bits, least, greatest) {
        None
    } else {
        Some("div")
    }
}

/// The first call that is wrong on any pair of operands of this type.
pub fn wrong<V: Integer + SumCalls + ProductCalls>(sample: V) -> Option<&'static str> {
    let _ = sample.to_u128_bits();
    let operands = patterns(width(sample));
    for x in operands {
        for y in operands {
            let (a, b) = (V::from_u128_bits(x), V::from_u128_bits(y));
            if let Some(name) = first_wrong(a, b) {
                return Some(name);
            }
        }
    }
    None
}

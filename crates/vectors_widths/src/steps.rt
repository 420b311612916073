//! Division as a step of a run, by every operand, also 0 and -1.

use crate::arithmetic::exact;
use crate::operands::{number, patterns, width};
use arbitrary_int::prelude::*;
use arbitrary_int::{Step, TwoOp, Why, run, well_formed};

/// What a step leaves of two numbers in the first of the registers, or why it stops. There are two registers
/// at least, so that every such step is well formed.
fn after<V: FixedWidth>(op: TwoOp, a: V, b: V, registers: &mut [V]) -> Option<Result<u128, Why>> {
    let steps = [Step::Two {
        op,
        to: 0,
        left: 0,
        right: 1,
    }];
    if registers.len() < 2 || !well_formed(&steps, registers.len()) {
        return None;
    }
    registers[0] = a;
    registers[1] = b;
    match run(&steps, registers) {
        Ok(()) => registers.first().map(|left| Ok(left.to_u128_bits())),
        Err(stop) => Some(Err(stop.why)),
    }
}

/// The first step that is wrong.
fn first_wrong<V: FixedWidth>(a: V, b: V, registers: &mut [V]) -> Option<&'static str> {
    let (bits, signed) = (width(a), V::IS_SIGNED);
    let (pattern, fits) = exact("div", a.to_u128_bits(), b.to_u128_bits(), bits, signed);
    let greatest = V::max_value().to_u128_bits();
    let by_zero = b == V::zero();
    let wrapping = if by_zero {
        Err(Why::ZeroDivisor)
    } else {
        Ok(number(pattern, bits, signed))
    };
    let saturating = if by_zero {
        Err(Why::ZeroDivisor)
    } else {
        Ok(if fits { pattern } else { greatest })
    };
    let checked = if by_zero || !fits {
        Err(Why::Refused)
    } else {
        Ok(pattern)
    };
    if after(TwoOp::WrappingDiv, a, b, registers) != Some(wrapping) {
        return Some("wrapping_div step");
    }
    if after(TwoOp::SaturatingDiv, a, b, registers) != Some(saturating) {
        return Some("saturating_div step");
    }
    if after(TwoOp::CheckedDiv, a, b, registers) != Some(checked) {
        return Some("checked_div step");
    }
    None
}

/// The first step that is wrong on any pair of operands of this type.
pub fn wrong<V: FixedWidth>(sample: V, registers: &mut [V]) -> Option<&'static str> {
    let _ = sample.to_u128_bits();
    let operands = patterns(width(sample));
    for x in operands {
        for y in operands {
            let name = first_wrong(V::from_u128_bits(x), V::from_u128_bits(y), registers);
            if name.is_some() {
                return name;
            }
        }
    }
    None
}

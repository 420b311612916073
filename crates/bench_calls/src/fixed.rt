//! The calls on integers of fixed width.

use crate::rounds::{Call, Nothing, Operands, repeat};
use crate::single::Word;
use arbitrary_calls::calls::FixedWidthCalls;
use arbitrary_calls::calls::counts::CountCalls;
use arbitrary_calls::calls::products::ProductCalls;
use arbitrary_calls::calls::shifts::ShiftCalls;
use arbitrary_calls::calls::sums::SumCalls;

struct WrappingSum;

impl<V: FixedWidthCalls> Call<V> for WrappingSum {
    fn result(x: V, y: V, _amount: u32) -> V {
        x.wrapping_add(y)
    }
}

struct CheckedSum;

impl<V: FixedWidthCalls> Call<V> for CheckedSum {
    fn result(x: V, y: V, _amount: u32) -> V {
        x.checked_add(y).unwrap_or(y)
    }
}

struct SaturatingSum;

impl<V: FixedWidthCalls> Call<V> for SaturatingSum {
    fn result(x: V, y: V, _amount: u32) -> V {
        x.saturating_add(y)
    }
}

struct OverflowingSum;

impl<V: FixedWidthCalls> Call<V> for OverflowingSum {
    fn result(x: V, y: V, _amount: u32) -> V {
        let (sum, overflow) = x.overflowing_add(y);
        if overflow { y } else { sum }
    }
}

struct WrappingProduct;

impl<V: FixedWidthCalls> Call<V> for WrappingProduct {
    fn result(x: V, y: V, _amount: u32) -> V {
        x.wrapping_mul(y)
    }
}

struct CheckedProduct;

impl<V: FixedWidthCalls> Call<V> for CheckedProduct {
    fn result(x: V, y: V, _amount: u32) -> V {
        x.checked_mul(y).unwrap_or(y)
    }
}

struct SaturatingProduct;

impl<V: FixedWidthCalls> Call<V> for SaturatingProduct {
    fn result(x: V, y: V, _amount: u32) -> V {
        x.saturating_mul(y)
    }
}

struct OverflowingProduct;

impl<V: FixedWidthCalls> Call<V> for OverflowingProduct {
    fn result(x: V, y: V, _amount: u32) -> V {
        let (product, overflow) = x.overflowing_mul(y);
        if overflow { y } else { product }
    }
}

struct SaturatingPower;

impl<V: FixedWidthCalls> Call<V> for SaturatingPower {
    fn result(_x: V, y: V, amount: u32) -> V {
        y.saturating_pow(amount)
    }
}

struct Shifted;

impl<V: FixedWidthCalls> Call<V> for Shifted {
    fn result(_x: V, y: V, amount: u32) -> V {
        y.wrapping_shl(amount)
    }
}

struct Rotated;

impl<V: FixedWidthCalls> Call<V> for Rotated {
    fn result(_x: V, y: V, amount: u32) -> V {
        y.rotate_left(amount)
    }
}

struct Reversed;

impl<V: FixedWidthCalls> Call<V> for Reversed {
    fn result(_x: V, y: V, _amount: u32) -> V {
        y.reverse_bits()
    }
}

struct OnesCounted;

impl<V: FixedWidthCalls> Call<V> for OnesCounted {
    fn result(x: V, y: V, _amount: u32) -> V {
        if y.count_ones() < 4 { x } else { y }
    }
}

struct Extracted;

impl<V: Word> Call<V> for Extracted {
    fn result(_x: V, y: V, amount: u32) -> V {
        V::taken(amount, y.place())
    }
}

/// The last results of the call of that name, and `None` where there is no such call.
pub fn results<V: FixedWidthCalls>(
    call: &str,
    operands: &Operands<V>,
    passes: u32,
) -> Option<[V; 1024]> {
    match call {
        "nothing" => Some(repeat::<V, Nothing>(operands, passes)),
        "wrapping_add" => Some(repeat::<V, WrappingSum>(operands, passes)),
        "checked_add" => Some(repeat::<V, CheckedSum>(operands, passes)),
        "saturating_add" => Some(repeat::<V, SaturatingSum>(operands, passes)),
        "overflowing_add" => Some(repeat::<V, OverflowingSum>(operands, passes)),
        "wrapping_mul" => Some(repeat::<V, WrappingProduct>(operands, passes)),
        "checked_mul" => Some(repeat::<V, CheckedProduct>(operands, passes)),
        "saturating_mul" => Some(repeat::<V, SaturatingProduct>(operands, passes)),
        "overflowing_mul" => Some(repeat::<V, OverflowingProduct>(operands, passes)),
        "saturating_pow" => Some(repeat::<V, SaturatingPower>(operands, passes)),
        "wrapping_shl" => Some(repeat::<V, Shifted>(operands, passes)),
        "rotate_left" => Some(repeat::<V, Rotated>(operands, passes)),
        "reverse_bits" => Some(repeat::<V, Reversed>(operands, passes)),
        "count_ones" => Some(repeat::<V, OnesCounted>(operands, passes)),
        _ => None,
    }
}

/// The last results of `extract_u32`.
pub fn extracts<V: Word>(operands: &Operands<V>, passes: u32) -> [V; 1024] {
    repeat::<V, Extracted>(operands, passes)
}

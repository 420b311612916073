//! The loop around a call, and its operands. `fixed` has the calls, each a `Call`, and `single` uses the same
//! operands. `tools/instructions.py` subtracts the cost of `Nothing`.

ghost use Rattle.std.specs.Prelude.{◌≤◌};

use arbitrary_calls::calls::FixedWidthCalls;
use arbitrary_calls::fixed_width::FixedWidth;
use arbitrary_traits::numbered::Numbered;

/// A call on two values.
pub trait Call<V> {
    /// Its result. A call on one value is made on `y`, as `nothing` reads it too, and a result that
    /// is no value of the type picks one of the two. `amount` is one of the amounts of the operands.
    fn result(x: V, y: V, amount: u32) -> V;
}

/// No call: what the loop itself costs.
pub struct Nothing;

impl<V: Drop> Call<V> for Nothing {
    fn result(_x: V, y: V, _amount: u32) -> V {
        y
    }
}

/// The values that the calls are made on.
#[derive(Drop)]
pub struct Operands<V> {
    pub left: [V; 1024],
    pub right: [V; 1024],
    pub amounts: [u32; 1024],
}

/// Values of all sizes. The width is valid.
pub fn values<V: Numbered>(seed: u128) -> [V; 1024]
    requires { V.valid }
{
    let mut values = [V::from_u128_bits(0); 1024];
    let mut pattern = seed;
    for i in 0..1024 {
        pattern = pattern.wrapping_mul(0x9e37_79b9_7f4a_7c15_f39c_c060_5ced_c835);
        values[i] = V::from_u128_bits(pattern >> (8 * (i % 16)));
    }
    values
}

/// Amounts below the limit.
fn amounts_below(limit: u32) -> [u32; 1024]
    requires { 1 ≤ limit }
{
    let mut amounts = [0; 1024];
    let mut pattern = 5u128;
    for i in 0..1024 {
        pattern = pattern.wrapping_mul(0x9e37_79b9_7f4a_7c15_f39c_c060_5ced_c835);
        amounts[i] = ((pattern >> 64) % limit as u128) as u32;
    }
    amounts
}

impl<V: Numbered> Operands<V> {
    /// Values of all sizes, and amounts below the limit. The width is valid.
    pub fn new(limit: u32) -> Self
        requires width { V.valid }
        requires some { 1 ≤ limit }
    {
        Operands {
            left: values(1),
            right: values(3),
            amounts: amounts_below(limit),
        }
    }
}

impl<V: FixedWidthCalls> Operands<V> {
    /// The same values, shifted toward 0 by `places`.
    pub fn moved(&mut self, places: u32) {
        for i in 0..1024 {
            self.left[i] = self.left[i].wrapping_shr(places);
            self.right[i] = self.right[i].wrapping_shr(places);
        }
    }
}

impl<V: FixedWidth> Operands<V> {
    /// Values next to the ends of the range, those of a pair next to the same end.
    pub fn at_ends(&mut self)
        requires { V.valid }
    {
        for i in 0..1024 {
            let near = V::from_u128_bits(i as u128 % 4);
            self.left[i] = if i % 2 == 0 {
                V::max_value().wrapping_sub(near)
            } else {
                V::min_value().wrapping_add(near)
            };
            self.right[i] = self.left[i];
        }
    }
}

/// One pass over all pairs of operands.
#[inline(never)]
fn pass<V: Copy + Drop, C: Call<V>>(operands: &Operands<V>, results: &mut [V; 1024]) {
    for i in 0..1024 {
        results[i] = C::result(operands.left[i], operands.right[i], operands.amounts[i]);
    }
}

/// The last results of `passes` passes.
#[inline(never)]
pub fn repeat<V: Copy + Drop, C: Call<V>>(operands: &Operands<V>, passes: u32) -> [V; 1024] {
    let mut results = operands.left;
    for _ in 0..passes {
        pass::<V, C>(operands, &mut results);
    }
    results
}

//! Calls in functions of their own, on numbers in their storage, so that the instructions of one call can be counted.

ghost use Rattle.std.specs.Prelude.{◌≤◌};
ghost use Rattle.arbitrary_base.specs.Range.{InRange};

use crate::rounds::Operands;
use arbitrary_base::storage::Storage;
use arbitrary_calls::calls::FixedWidthCalls;
use arbitrary_calls::calls::counts::CountCalls;
use arbitrary_calls::calls::products::ProductCalls;
use arbitrary_calls::calls::shifts::ShiftCalls;
use arbitrary_calls::calls::sums::SumCalls;
use arbitrary_calls::extraction::Extraction;
use arbitrary_core::aliases::signed::{i7, i14};
use arbitrary_core::aliases::unsigned::{u7, u14};

/// A call whose result is a number.
pub trait Plain<V> {
    /// Its result. The call needs one value or two, or a value and the amount.
    fn result(x: V, y: V, amount: u32) -> V;
}

/// A call that refuses.
pub trait Checked<V> {
    /// Its result.
    fn result(x: V, y: V) -> Option<V>;
}

/// A call that also returns whether it overflowed.
pub trait Flagged<V> {
    /// Its result.
    fn result(x: V, y: V) -> (V, bool);
}

struct WrappingSum;

impl<V: FixedWidthCalls> Plain<V> for WrappingSum {
    fn result(x: V, y: V, _amount: u32) -> V {
        x.wrapping_add(y)
    }
}

struct WrappingProduct;

impl<V: FixedWidthCalls> Plain<V> for WrappingProduct {
    fn result(x: V, y: V, _amount: u32) -> V {
        x.wrapping_mul(y)
    }
}

struct SaturatingSum;

impl<V: FixedWidthCalls> Plain<V> for SaturatingSum {
    fn result(x: V, y: V, _amount: u32) -> V {
        x.saturating_add(y)
    }
}

struct SaturatingProduct;

impl<V: FixedWidthCalls> Plain<V> for SaturatingProduct {
    fn result(x: V, y: V, _amount: u32) -> V {
        x.saturating_mul(y)
    }
}

struct SaturatingPower;

impl<V: FixedWidthCalls> Plain<V> for SaturatingPower {
    fn result(x: V, _y: V, amount: u32) -> V {
        x.saturating_pow(amount)
    }
}

struct Shifted;

impl<V: FixedWidthCalls> Plain<V> for Shifted {
    fn result(x: V, _y: V, amount: u32) -> V {
        x.wrapping_shl(amount)
    }
}

struct Rotated;

impl<V: FixedWidthCalls> Plain<V> for Rotated {
    fn result(x: V, _y: V, amount: u32) -> V {
        x.rotate_left(amount)
    }
}

struct Reversed;

impl<V: FixedWidthCalls> Plain<V> for Reversed {
    fn result(x: V, _y: V, _amount: u32) -> V {
        x.reverse_bits()
    }
}

struct Sum;

impl<V: FixedWidthCalls> Checked<V> for Sum {
    fn result(x: V, y: V) -> Option<V> {
        x.checked_add(y)
    }
}

impl<V: FixedWidthCalls> Flagged<V> for Sum {
    fn result(x: V, y: V) -> (V, bool) {
        x.overflowing_add(y)
    }
}

struct Product;

impl<V: FixedWidthCalls> Checked<V> for Product {
    fn result(x: V, y: V) -> Option<V> {
        x.checked_mul(y)
    }
}

impl<V: FixedWidthCalls> Flagged<V> for Product {
    fn result(x: V, y: V) -> (V, bool) {
        x.overflowing_mul(y)
    }
}

#[inline(never)]
fn counted_plain<V: FixedWidthCalls, C: Plain<V>>(
    x: V::Representation,
    y: V::Representation,
    amount: u32,
) -> V::Representation
    requires some { 1 ≤ V.BITS }
    requires storage { V.BITS ≤ V.Representation.WIDTH }
    requires x_in { InRange V.Representation.SIGNED V.BITS (V.Representation.number x) }
    requires y_in { InRange V.Representation.SIGNED V.BITS (V.Representation.number y) }
{
    C::result(V::from_storage(x), V::from_storage(y), amount).to_storage()
}

#[inline(never)]
fn counted_checked<V: FixedWidthCalls, C: Checked<V>>(
    x: V::Representation,
    y: V::Representation,
    out: &mut V::Representation,
) -> bool
    requires some { 1 ≤ V.BITS }
    requires storage { V.BITS ≤ V.Representation.WIDTH }
    requires x_in { InRange V.Representation.SIGNED V.BITS (V.Representation.number x) }
    requires y_in { InRange V.Representation.SIGNED V.BITS (V.Representation.number y) }
{
    match C::result(V::from_storage(x), V::from_storage(y)) {
        Some(result) => {
            *out = result.to_storage();
            true
        }
        None => false,
    }
}

#[inline(never)]
fn counted_flagged<V: FixedWidthCalls, C: Flagged<V>>(
    x: V::Representation,
    y: V::Representation,
    out: &mut bool,
) -> V::Representation
    requires some { 1 ≤ V.BITS }
    requires storage { V.BITS ≤ V.Representation.WIDTH }
    requires x_in { InRange V.Representation.SIGNED V.BITS (V.Representation.number x) }
    requires y_in { InRange V.Representation.SIGNED V.BITS (V.Representation.number y) }
{
    let (result, overflow) = C::result(V::from_storage(x), V::from_storage(y));
    *out = overflow;
    result.to_storage()
}

#[inline(never)]
fn counted_ones<V: FixedWidthCalls>(x: V::Representation) -> u32
    requires some { 1 ≤ V.BITS }
    requires storage { V.BITS ≤ V.Representation.WIDTH }
    requires x_in { InRange V.Representation.SIGNED V.BITS (V.Representation.number x) }
{
    V::from_storage(x).count_ones()
}

/// A type of at most 16 bits, which are extracted from a word.
pub trait Word: FixedWidthCalls {
    /// The value of the bits of the word from that place on.
    fn taken(word: u32, place: usize) -> Self
        requires { place ≤ 15 };

    /// A place that depends on the value.
    fn place(self) -> usize
        ensures { result ≤ 15 };
}

impl Word for u7 {
    fn taken(word: u32, place: usize) -> u7 {
        u7::extract_u32(word, place)
    }

    fn place(self) -> usize {
        (self.value() % 16) as usize
    }
}

impl Word for i7 {
    fn taken(word: u32, place: usize) -> i7 {
        i7::extract_u32(word, place)
    }

    fn place(self) -> usize {
        (self.to_bits() % 16) as usize
    }
}

impl Word for u14 {
    fn taken(word: u32, place: usize) -> u14 {
        u14::extract_u32(word, place)
    }

    fn place(self) -> usize {
        (self.value() % 16) as usize
    }
}

impl Word for i14 {
    fn taken(word: u32, place: usize) -> i14 {
        i14::extract_u32(word, place)
    }

    fn place(self) -> usize {
        (self.to_bits() % 16) as usize
    }
}

#[inline(never)]
fn counted_taken<V: Word>(word: u32, place: usize) -> V::Representation
    requires { place ≤ 15 }
{
    V::taken(word, place).to_storage()
}

fn plain_results<V: FixedWidthCalls, C: Plain<V>>(
    operands: &Operands<V>,
    rounds: u32,
) -> [V::Representation; 16] {
    let mut results = [operands.left[0].to_storage(); 16];
    for i in 0..rounds {
        let at = (i % 16) as usize;
        let x = operands.left[at].to_storage();
        let y = operands.right[at].to_storage();
        results[at] = counted_plain::<V, C>(x, y, operands.amounts[at]);
    }
    results
}

fn checked_results<V: FixedWidthCalls, C: Checked<V>>(
    operands: &Operands<V>,
    rounds: u32,
) -> [V::Representation; 16] {
    let mut results = [operands.left[0].to_storage(); 16];
    for i in 0..rounds {
        let at = (i % 16) as usize;
        let x = operands.left[at].to_storage();
        let y = operands.right[at].to_storage();
        let mut out = y;
        results[at] = if counted_checked::<V, C>(x, y, &mut out) {
            out
        } else {
            x
        };
    }
    results
}

fn flagged_results<V: FixedWidthCalls, C: Flagged<V>>(
    operands: &Operands<V>,
    rounds: u32,
) -> [V::Representation; 16] {
    let mut results = [operands.left[0].to_storage(); 16];
    for i in 0..rounds {
        let at = (i % 16) as usize;
        let x = operands.left[at].to_storage();
        let y = operands.right[at].to_storage();
        let mut overflow = false;
        let result = counted_flagged::<V, C>(x, y, &mut overflow);
        results[at] = if overflow { x } else { result };
    }
    results
}

fn ones_results<V: FixedWidthCalls>(
    operands: &Operands<V>,
    rounds: u32,
) -> [V::Representation; 16] {
    let mut results = [operands.left[0].to_storage(); 16];
    for i in 0..rounds {
        let at = (i % 16) as usize;
        let x = operands.left[at].to_storage();
        results[at] = if counted_ones::<V>(x) < 4 {
            x
        } else {
            operands.right[at].to_storage()
        };
    }
    results
}

/// The last results of `rounds` calls of `extract_u32`.
pub fn extracts<V: Word>(operands: &Operands<V>, rounds: u32) -> [V::Representation; 16] {
    let mut results = [operands.left[0].to_storage(); 16];
    for i in 0..rounds {
        let at = (i % 16) as usize;
        results[at] = counted_taken::<V>(operands.amounts[at], at);
    }
    results
}

/// The last results of the call of that name, and `None` where there is no such call.
pub fn results<V: FixedWidthCalls>(
    call: &str,
    operands: &Operands<V>,
    rounds: u32,
) -> Option<[V::Representation; 16]> {
    match call {
        "wrapping_add" => Some(plain_results::<V, WrappingSum>(operands, rounds)),
        "wrapping_mul" => Some(plain_results::<V, WrappingProduct>(operands, rounds)),
        "saturating_add" => Some(plain_results::<V, SaturatingSum>(operands, rounds)),
        "saturating_mul" => Some(plain_results::<V, SaturatingProduct>(operands, rounds)),
        "saturating_pow" => Some(plain_results::<V, SaturatingPower>(operands, rounds)),
        "wrapping_shl" => Some(plain_results::<V, Shifted>(operands, rounds)),
        "rotate_left" => Some(plain_results::<V, Rotated>(operands, rounds)),
        "reverse_bits" => Some(plain_results::<V, Reversed>(operands, rounds)),
        "checked_add" => Some(checked_results::<V, Sum>(operands, rounds)),
        "checked_mul" => Some(checked_results::<V, Product>(operands, rounds)),
        "overflowing_add" => Some(flagged_results::<V, Sum>(operands, rounds)),
        "overflowing_mul" => Some(flagged_results::<V, Product>(operands, rounds)),
        "count_ones" => Some(ones_results::<V>(operands, rounds)),
        _ => None,
    }
}

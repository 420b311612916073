//! Facts about more calls in code that is generic over the type or its storage.

ghost use Rattle.std.specs.Prelude.{◌≡◌, ◌↔◌, ◌+ℤ◌, ◌≤ℤ◌, ◌<ℤ◌, pos, IsTrue};
ghost use Rattle.arbitrary_int.specs.Range.{InRange, hi};
ghost use Rattle.arbitrary_int.specs.Residue.{Congruent};

use arbitrary_int::prelude::*;

pub fn added_or_greatest<V: FixedWidth + ValidWidth>(a: V, b: V) -> V
    ensures fits { InRange V.IS_SIGNED V.BITS (V.number a +ℤ V.number b)
        → V.number result ≡ V.number a +ℤ V.number b }
    ensures ends { hi V.IS_SIGNED V.BITS <ℤ (V.number a +ℤ V.number b)
        → V.number result ≡ hi V.IS_SIGNED V.BITS }
{
    match a.checked_add(b) {
        Some(sum) => sum,
        None => V::max_value(),
    }
}

pub fn in_order<V: Integer>(a: V, b: V) -> (V, V)
    ensures { V.number result.0 ≤ℤ V.number result.1 }
{
    if a < b { (a, b) } else { (b, a) }
}

pub fn is_zero<T: BuiltinInteger + UnsignedStorage, const BITS: usize>(x: UInt<T, BITS>) -> bool
where
    T: UnsignedOf<T::Signed>,
    T::Signed: SignedOf<T>,
    ensures { IsTrue result ↔ (x ≡ pos 0) }
{
    x == UInt::<T, BITS>::zero()
}

pub fn wrapped_total<T: UnsignedStorage, const BITS: usize>(
    x: UInt<T, BITS>,
    y: UInt<T, BITS>,
) -> UInt<T, BITS>
    ensures { Congruent BITS result (x +ℤ y) }
{
    x.wrapping_add(y)
}

pub fn one_of_two<V: Integer>(a: V, b: V) -> V
    ensures left { V.number a <ℤ V.number b → V.number result ≡ V.number b }
{
    a.max(b)
}

pub fn step_down<V: SumCalls>(x: V, step: V) -> V
    requires { pos 0 ≤ℤ V.number step }
    ensures { V.number result ≤ℤ V.number x }
{
    x.saturating_sub(step)
}

pub fn power_in_range<V: ProductCalls>(x: V) -> V
    ensures { InRange V.IS_SIGNED V.BITS (V.number result) }
{
    x.saturating_pow(3)
}

pub fn ones_and_zeros<V: CountCalls>(x: V) -> u32
    ensures { result ≡ V.BITS }
{
    x.count_ones() + x.count_zeros()
}

pub fn width<V: FixedWidth>() -> u32
    requires { V.valid }
    ensures { result ≡ V.BITS }
{
    V::BITS as u32
}

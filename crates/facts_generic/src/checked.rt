//! Facts about calls that refuse or clamp, and about conversions there and back, in code that is generic over
//! the type.

ghost use Rattle.std.specs.Prelude.{◌≡◌, ◌≤◌, ◌<◌, pos, IsTrue};
ghost use Rattle.arbitrary_int.specs.Range.{InRange};

use arbitrary_int::prelude::*;

pub fn checked_shift_is_some<V: ShiftCalls>(x: V, n: u32) -> bool
    requires { V.valid }
    ensures { IsTrue result }
{
    x.checked_shl(n).is_some() == ((n as usize) < V::BITS)
}

pub fn checked_product_with_one<V: FixedWidth>(x: V) -> bool
    requires width { V.valid }
    requires one { InRange V.IS_SIGNED V.BITS (pos 1) }
    ensures { IsTrue result }
{
    x.checked_mul(V::masked_new(1u8)) == Some(x)
}

pub fn checked_difference_back<V: FixedWidth>(x: V, y: V) -> bool
    requires { V.valid }
    ensures { IsTrue result }
{
    match x.checked_sub(y) {
        Some(d) => d.checked_add(y) == Some(x),
        None => true
    }
}

pub fn checked_is_wrapping<V: FixedWidth>(x: V, y: V) -> bool
    requires { V.valid }
    ensures { IsTrue result }
{
    match x.checked_add(y) {
        Some(s) => s == x.wrapping_add(y),
        None => true
    }
}

pub fn clamped_sum_and_back<V: SumCalls + UnsignedInteger>(x: V, y: V) -> bool
    requires { V.valid }
    ensures { IsTrue result }
{
    x.saturating_add(y).saturating_sub(y) <= x
}

pub fn wider_and_back<A: Integer, B: Integer>(x: A) -> bool
    requires wider { A.BITS ≤ B.BITS }
    requires signs { A.IS_SIGNED ≡ B.IS_SIGNED }
    requires width { B.valid }
    ensures { IsTrue result }
{
    x.as_::<B>().as_::<A>() == x
}

pub fn unsigned_wider_and_back<A: UnsignedInteger, B: SignedInteger>(x: A) -> bool
    requires wider { A.BITS < B.BITS }
    requires width { B.valid }
    ensures { IsTrue result }
{
    x.as_::<B>().as_::<A>() == x
}

pub fn same_order<A: UnsignedInteger, B: UnsignedInteger>(x: A, y: A) -> bool
    requires wider { A.BITS ≤ B.BITS }
    requires width { B.valid }
    ensures { IsTrue result }
{
    (x.as_::<B>() < y.as_::<B>()) == (x < y)
}

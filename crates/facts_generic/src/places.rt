//! Facts about complements, single bits and masks at a variable place in code that is generic over the type.

ghost use Rattle.std.specs.Prelude.{◌≡◌, ◌↔◌, ◌<◌, ◌%◌, ◌^◌, ◌<ℤ◌, pos, unsigned_abs, IsTrue};

use arbitrary_int::prelude::*;

pub fn rest_of_the_range<V: FixedWidth + UnsignedInteger>(x: V) -> bool
    requires { V.valid }
    ensures { IsTrue result }
{
    V::max_value() - x == !x
}

pub fn is_even<V: FixedWidth + UnsignedInteger>(x: V) -> bool
    requires { V.valid }
    ensures { IsTrue result ↔ (unsigned_abs (V.number x) % 2 ≡ 0) }
{
    x & V::from_(1u8) == V::zero()
}

pub fn power_of_two<V: FixedWidth + UnsignedInteger>(place: u32) -> V
    requires width { V.valid }
    requires within { place < V.BITS }
    ensures { V.number result ≡ pos (2 ^ place) }
{
    V::from_(1u8).wrapping_shl(place)
}

pub fn low_bits<V: FixedWidth + UnsignedInteger>(x: V, count: u32) -> V
    requires width { V.valid }
    requires within { count < V.BITS }
    ensures { V.number result <ℤ pos (2 ^ count) }
{
    x & V::from_(1u8)
        .wrapping_shl(count)
        .wrapping_sub(V::from_(1u8))
}

//! Facts about orders, clamped sums and equal sums in code that is generic over the type.

ghost use Rattle.std.specs.Prelude.{◌≤ℤ◌, IsTrue};

use arbitrary_int::prelude::*;

pub fn le_total<V: Integer>(x: V, y: V) -> bool
    ensures { IsTrue result }
{
    x <= y || y <= x
}

pub fn lt_transitive<V: Integer>(x: V, y: V, z: V) -> bool
    ensures { IsTrue result }
{
    !(x < y && y <= z) || x < z
}

pub fn min_associates<V: Integer>(x: V, y: V, z: V) -> bool
    ensures { IsTrue result }
{
    x.min(y).min(z) == x.min(y.min(z))
}

pub fn min_plus_max<V: FixedWidth>(x: V, y: V) -> bool
    requires { V.valid }
    ensures { IsTrue result }
{
    x.min(y).wrapping_add(x.max(y)) == x.wrapping_add(y)
}

pub fn clamped_twice<V: Integer>(x: V, low: V, high: V) -> bool
    requires { V.number low ≤ℤ V.number high }
    ensures { IsTrue result }
{
    let y = x.max(low).min(high);
    let z = y.max(low).min(high);
    y == z
}

pub fn held_by_clamp<V: Integer>(x: V, low: V, high: V) -> V
    requires { V.number low ≤ℤ V.number high }
    ensures low { V.number low ≤ℤ V.number result }
    ensures high { V.number result ≤ℤ V.number high }
{
    x.clamp(low, high)
}

pub fn held_early<V: Integer>(x: V, low: V, high: V) -> V
    requires { V.number low ≤ℤ V.number high }
    ensures low { V.number low ≤ℤ V.number result }
    ensures high { V.number result ≤ℤ V.number high }
{
    if x < low {
        return low;
    }
    if x > high {
        return high;
    }
    x
}

pub fn difference_is_none<V: FixedWidth>(x: V, y: V) -> bool
    requires { V.valid }
    ensures { IsTrue result }
{
    (x.wrapping_sub(y) == V::zero()) == (x == y)
}

pub fn swapped_by_xors<V: FixedWidth>(x: V, y: V) -> bool
    requires { V.valid }
    ensures { IsTrue result }
{
    let a = x ^ y;
    let b = a ^ y;
    let c = a ^ b;
    b == x && c == y
}

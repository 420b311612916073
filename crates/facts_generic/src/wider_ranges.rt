//! Laws about a number in a type of at least as many bits, where the widths are not known.
#![tactic(auto, using(arbitrary_laws::proofs::numbers::WiderRanges::wider_ranges))]

ghost use Rattle.std.specs.Prelude.{◌≡◌, ◌≤◌, ◌<◌, ◌+ℤ◌, false};
ghost use Rattle.arbitrary_int.specs.Residue.{Congruent};

use arbitrary_int::prelude::*;

pub fn widened<V: Integer, W: Integer>(x: V) -> W
    requires width { W.valid }
    requires sign { V.IS_SIGNED ≡ W.IS_SIGNED }
    requires wider { V.BITS < W.BITS }
    ensures { W.number result ≡ V.number x }
{
    W::from_(x)
}

pub fn widened_with_no_sign<V: Integer, W: Integer>(x: V) -> W
    requires width { W.valid }
    requires sign { V.IS_SIGNED ≡ false }
    requires same_sign { W.IS_SIGNED ≡ false }
    requires wider { V.BITS ≤ W.BITS }
    ensures { W.number result ≡ V.number x }
{
    W::from_(x)
}

pub fn wide_sum<V: FixedWidth, W: FixedWidth>(x: V, y: V) -> W
    requires width { W.valid }
    requires sign { V.IS_SIGNED ≡ W.IS_SIGNED }
    requires wider { V.BITS < W.BITS }
    ensures { Congruent W.BITS (W.number result) (V.number x +ℤ V.number y) }
{
    W::from_(x).wrapping_add(W::from_(y))
}

pub fn widened_in_a_wider_storage<const A: usize, const B: usize>(x: UInt<u32, A>) -> UInt<u64, B>
    requires width { B ≤ 64 }
    requires wider { A ≤ B }
    ensures { result ≡ x.entry }
{
    UInt::<u64, B>::from_(x)
}

pub fn widened_with_a_sign<const A: usize, const B: usize>(x: Int<i32, A>) -> Int<i64, B>
    requires width { B ≤ 64 }
    requires wider { A ≤ B }
    ensures { result ≡ x.entry }
{
    Int::<i64, B>::from_(x)
}

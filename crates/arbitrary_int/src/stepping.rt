//! The calls of Rust's unstable trait `Step`, which ranges use. The lemmas are in proofs/SteppingLemmas.antt, and
//! the definitions in specs/Ranges.antt.
//!
//! Each function first reads the numbers of its arguments, as in `let _known = x.to_u128_bits();`. In generic code,
//! the check knows no range of a value before a call reads it, and the proof needs that range.

ghost use Rattle.std.specs.Prelude.{◌≡◌, ◌+ℤ◌, ◌-ℤ◌, ◌≤ℤ◌, ◌<ℤ◌, pos, SomeIff, option_map};
ghost use Rattle.std.specs.Ordering.{int_cmp};
ghost use Rattle.arbitrary_base.specs.Range.{InRange};
ghost use Rattle.arbitrary_int.specs.Ranges.{StepsBetween};

use arbitrary_base::ends::{highest, lowest};
use arbitrary_base::storage::Storage;
use arbitrary_calls::calls::sums::SumCalls;
use arbitrary_calls::stored::Stored;
use std::cmp::Ordering;

/// How the numbers of two values are ordered.
// `Ord` belongs to `Integer`, whose many parents would make each function here slow to check.
pub(crate) fn order<V: Stored>(x: V, y: V) -> Ordering
    ensures { result ≡ int_cmp (V.number x) (V.number y) }
{
    x.to_storage().compare(&y.to_storage())
}

/// The next value. Requires a greater one, `limit`.
#[tactic(auto, using(crate::proofs::SteppingLemmas::in_up))]
pub(crate) fn after<V: SumCalls>(x: V, limit: V) -> V
    requires { V.number x <ℤ V.number limit }
    ensures { V.number result ≡ V.number x +ℤ pos 1 }
{
    let _known = x.to_u128_bits();
    let _limit = limit.to_u128_bits();
    forward(x, 1)
}

/// The value before. Requires a lesser one, `limit`.
#[tactic(auto, using(crate::proofs::SteppingLemmas::in_down))]
pub(crate) fn before<V: SumCalls>(x: V, limit: V) -> V
    requires { V.number limit <ℤ V.number x }
    ensures { V.number result ≡ V.number x -ℤ pos 1 }
{
    let _known = x.to_u128_bits();
    let _limit = limit.to_u128_bits();
    backward(x, 1)
}

/// The value `by` steps above. Requires that it is in range.
#[tactic(auto, using(crate::proofs::SteppingLemmas::moves))]
fn forward<V: SumCalls>(x: V, by: u128) -> V
    requires { InRange V.IS_SIGNED V.BITS (V.number x +ℤ pos by) }
    ensures { V.number result ≡ V.number x +ℤ pos by }
{
    let _known = x.to_u128_bits();
    x.wrapping_add(V::masked_new(by))
}

/// The value `by` steps below. Requires that it is in range.
#[tactic(auto, using(crate::proofs::SteppingLemmas::moves))]
fn backward<V: SumCalls>(x: V, by: u128) -> V
    requires { InRange V.IS_SIGNED V.BITS (V.number x -ℤ pos by) }
    ensures { V.number result ≡ V.number x -ℤ pos by }
{
    let _known = x.to_u128_bits();
    x.wrapping_sub(V::masked_new(by))
}

/// The number of steps from `start` up to `end`. Requires that `start` is not greater.
#[tactic(auto, using(crate::proofs::SteppingLemmas::distances))]
fn distance<V: SumCalls>(start: V, end: V) -> u128
    requires { V.number start ≤ℤ V.number end }
    ensures { pos result ≡ V.number end -ℤ V.number start }
{
    let _first = start.to_u128_bits();
    let _last = end.to_u128_bits();
    Storage::wrapping_sub(end.as_u128(), start.as_u128())
}

/// Values that are some steps above or below another. `UInt` and `Int` implement it at every width.
pub trait Stepping: SumCalls {
    /// The number of steps from `start` up to `end`, twice: `(usize::MAX, None)` if it does not fit
    /// in a `usize`, and `(0, None)` if `start` is greater.
    final fn steps_between(start: &Self, end: &Self) -> (usize, Option<usize>)
        ensures { StepsBetween (Self.number end.now -ℤ Self.number start.now) result }
    {
        if order(*end, *start) == Ordering::Less {
            return (0, None);
        }
        let steps = distance(*start, *end);
        if steps <= usize::MAX as u128 {
            (steps as usize, Some(steps as usize))
        } else {
            (usize::MAX, None)
        }
    }

    /// The value `count` steps above, or `None` exactly if it is out of range.
    #[tactic(auto, using(crate::proofs::SteppingLemmas::ends))]
    final fn forward_checked(start: Self, count: usize) -> Option<Self>
        ensures { SomeIff (option_map Self.number result)
            (InRange Self.IS_SIGNED Self.BITS (Self.number start +ℤ pos count))
            (Self.number start +ℤ pos count) }
    {
        let _known = start.to_storage();
        if count as u128 <= distance(start, Self::from_storage(highest(Self::BITS))) {
            Some(forward(start, count as u128))
        } else {
            None
        }
    }

    /// The value `count` steps below, or `None` exactly if it is out of range.
    #[tactic(auto, using(crate::proofs::SteppingLemmas::ends))]
    final fn backward_checked(start: Self, count: usize) -> Option<Self>
        ensures { SomeIff (option_map Self.number result)
            (InRange Self.IS_SIGNED Self.BITS (Self.number start -ℤ pos count))
            (Self.number start -ℤ pos count) }
    {
        let _known = start.to_storage();
        if count as u128 <= distance(Self::from_storage(lowest(Self::BITS)), start) {
            Some(backward(start, count as u128))
        } else {
            None
        }
    }
}

impl<V: SumCalls> Stepping for V {}

//! `range_inclusive`: an iterator over the values of a range.

ghost use Rattle.std.specs.Prelude.{◌≡◌, ◌≤◌, ◌^◌, ⊤, length};
ghost use Rattle.std.specs.Iterator.{YieldsFirstBy, YieldsLastBy, at_most};
ghost use Rattle.std.specs.Iterator.Runs.{EachRunFrom};
ghost use Rattle.arbitrary_int.specs.Ranges.{values_left, numbers, CountsUp};

use crate::stepping::{after, before, order};
use arbitrary_calls::calls::sums::SumCalls;
use std::cmp::Ordering;

/// An iterator over the values of a range that are left.
#[derive(Clone, Drop)]
pub struct ValueRange<V: SumCalls> {
    start: V,
    end: V,
    done: bool,
}

/// An iterator over the values from `start` to `end`. It is empty if `start` is greater.
pub fn range_inclusive<V: SumCalls>(start: V, end: V) -> ValueRange<V>
    ensures values { let number = V.number in
        values_left result.done (number result.start) (number result.end)
        ≡ numbers (number start) (number end) }
    ensures runs { let number = V.number in
        EachRunFrom (YieldsFirstBy number (λ r. values_left r.done (number r.start) (number r.end)))
        result (λ run. CountsUp run number (number start) (number end)) }
    ensures bound { let number = V.number in
        length (values_left result.done (number result.start) (number result.end)) ≤ 2 ^ V.BITS }
{
    // the calls state the range of each end, for `bound`
    let _known = (start.to_u128_bits(), end.to_u128_bits());
    ValueRange {
        start,
        end,
        done: false,
    }
}

impl<V: SumCalls> Iterator for ValueRange<V> {
    type Item = V;

    ghost can_next = { λ _. ⊤ };

    ghost next_gives = { let number = V.number in
        YieldsFirstBy number (λ r. values_left r.done (number r.start) (number r.end)) };

    ghost remaining = { λ r.
        at_most (length (values_left r.done (V.number r.start) (V.number r.end))) };

    #[tactic(auto, using(crate::proofs::RangeSteps::first_steps))]
    fn next(&mut self) -> Option<V> {
        if self.done {
            return None;
        }
        let item = self.start;
        match order(item, self.end) {
            Ordering::Less => {
                self.start = after(item, self.end);
                Some(item)
            }
            Ordering::Equal => {
                self.done = true;
                Some(item)
            }
            Ordering::Greater => None,
        }
    }
}

impl<V: SumCalls> DoubleEndedIterator for ValueRange<V> {
    ghost can_next_back = { λ _. ⊤ };

    ghost next_back_gives = { let number = V.number in
        YieldsLastBy number (λ r. values_left r.done (number r.start) (number r.end)) };

    #[tactic(auto, using(crate::proofs::RangeSteps::last_steps))]
    fn next_back(&mut self) -> Option<V> {
        if self.done {
            return None;
        }
        let item = self.end;
        match order(self.start, item) {
            Ordering::Less => {
                self.end = before(item, self.start);
                Some(item)
            }
            Ordering::Equal => {
                self.done = true;
                Some(item)
            }
            Ordering::Greater => None,
        }
    }
}

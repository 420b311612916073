//! Equality and order of `Int`: those of the number, computed from the stored bits. `unsigned` has those of `UInt`,
//! which stores its number.

ghost use Rattle.std.specs.Prelude.{◌≡◌, ◌⊎◌, ◌≤ℤ◌, ◌<ℤ◌, ◌+ℤ◌, ◌-ℤ◌, ◌-◌, ◌^◌, pos};
ghost use Rattle.std.specs.Int.{IsInRange};
ghost use Rattle.std.specs.Ordering.{int_cmp, int_eq, as_partial_cmp};
ghost use Rattle.std.specs.Cmp.{partial_order_from_own_ties};
ghost use Rattle.std.specs.Cmp.Rules.{comparing};
ghost use Rattle.std.proofs.Common.{rules};

use crate::signed::Int;
use arbitrary_base::ends::lowest;
use arbitrary_base::storage::{SignedStorage, Storage, UnsignedOf};
use std::cmp::Ordering;

/// The place of the number in the order: its bits minus those of the least number, in the unsigned
/// storage.
// Negative numbers get the lower half of the places of the width, and the others places at the top of the storage. So no sign is
// extended.
fn place<T: SignedStorage, const BITS: usize, U: UnsignedOf<T>>(x: Int<T, BITS, U>) -> U
    ensures above { let half = pos (2 ^ (BITS - 1)) in
        pos 0 ≤ℤ x → U.number result ≡ x +ℤ pos (2 ^ T.WIDTH) -ℤ half }
    ensures below { let half = pos (2 ^ (BITS - 1)) in
        x <ℤ pos 0 → U.number result ≡ x +ℤ half }
    ensures width { IsInRange 1 T.WIDTH BITS }
{
    let bits = x.to_bits();
    let least = Int::<T, BITS, U>::new(lowest(BITS));
    bits.wrapping_sub(least.to_bits())
}

impl<T: SignedStorage, const BITS: usize, U: UnsignedOf<T>> PartialEq for Int<T, BITS, U> {
    ghost eq = { int_eq };

    ghost laws = { Prim.search (comparing, rules) };

    fn eq(&self, other: &Self) -> bool {
        self.to_bits().equal(&other.to_bits())
    }
}

impl<T: SignedStorage, const BITS: usize, U: UnsignedOf<T>> Eq for Int<T, BITS, U> {
    ghost laws = { Prim.search (comparing, rules) };
}

impl<T: SignedStorage, const BITS: usize, U: UnsignedOf<T>> PartialOrd for Int<T, BITS, U> {
    ghost partial_cmp = { as_partial_cmp int_cmp };

    ghost laws = { partial_order_from_own_ties (Prim.search (comparing, rules))
        (Prim.search (comparing, rules)) };

    fn partial_cmp(&self, other: &Self) -> Option<Ordering> {
        Some(self.cmp(other))
    }
}

impl<T: SignedStorage, const BITS: usize, U: UnsignedOf<T>> Ord for Int<T, BITS, U> {
    ghost cmp = { int_cmp };

    ghost total = { Prim.search (comparing, rules) };

    ghost matches_partial_cmp = { Prim.search (comparing, rules) };

    ghost matches_eq = { Prim.search (comparing, rules) };

    fn cmp(&self, other: &Self) -> Ordering {
        place(*self).compare(&place(*other))
    }
}

// `Ord` has these calls too. Here their contracts have bounds. With those of `Ord`, the search splits by the sign of each number, and
// does not prove facts about three numbers. `UInt` has no sign, and needs none of these.
impl<T: SignedStorage, const BITS: usize, U: UnsignedOf<T>> Int<T, BITS, U> {
    /// The greater of two numbers.
    pub fn max(self, other: Self) -> Self
        ensures at_least_self { self ≤ℤ result }
        ensures at_least_other { other ≤ℤ result }
        ensures either { (result ≡ self) ⊎ (result ≡ other) }
    {
        if self < other { other } else { self }
    }

    /// The lesser of two numbers.
    pub fn min(self, other: Self) -> Self
        ensures at_most_self { result ≤ℤ self }
        ensures at_most_other { result ≤ℤ other }
        ensures either { (result ≡ self) ⊎ (result ≡ other) }
    {
        if other < self { other } else { self }
    }

    /// The number, or the nearest number from `low` to `high`. Requires that `low` is at most
    /// `high`.
    pub fn clamp(self, low: Self, high: Self) -> Self
        requires order { low ≤ℤ high }
        ensures least { low ≤ℤ result }
        ensures greatest { result ≤ℤ high }
        ensures nearest { ((self <ℤ low) × (result ≡ low))
            ⊎ (((high <ℤ self) × (result ≡ high)) ⊎ (result ≡ self)) }
    {
        if self < low {
            low
        } else if high < self {
            high
        } else {
            self
        }
    }
}

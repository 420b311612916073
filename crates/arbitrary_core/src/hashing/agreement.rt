//! Equality, order and hash agree: all are those of the number. Each function proves its clauses, and does nothing.

ghost use Rattle.std.specs.Prelude.{◌≡◌, ◌↔◌, ℤ, IsTrue};
ghost use Rattle.std.specs.declared.cmp.Ordering.TheVariants.{Equal};

use crate::signed::Int;
use crate::unsigned::UInt;
use arbitrary_base::storage::{SignedStorage, UnsignedOf, UnsignedStorage};
use std::hash::Hash;

/// Two values of `UInt` are equal exactly if their numbers are, and exactly if neither comes before
/// the other. Equal values feed a hasher the same input: that of the number in the storage.
#[tactic(auto, using(crate::proofs::Agreement::agreements))]
pub fn unsigned_agreement_law<T: UnsignedStorage + Hash, const BITS: usize>()
    ensures equality { (x y : ℤ) → IsTrue (⟦<UInt<T, BITS> as PartialEq>⟧.eq x y) ↔ (x ≡ y) }
    ensures order { (x y : ℤ) → let compared = ⟦<UInt<T, BITS> as Ord>⟧.cmp x y in
        (compared ≡ Equal) ↔ IsTrue (⟦<UInt<T, BITS> as PartialEq>⟧.eq x y) }
    ensures hash { (x y : ℤ) → IsTrue (⟦<UInt<T, BITS> as PartialEq>⟧.eq x y)
        → ⟦<UInt<T, BITS> as Hash>⟧.hash_input x ≡ ⟦<UInt<T, BITS> as Hash>⟧.hash_input y }
    ensures fed { (x : T) → ⟦<UInt<T, BITS> as Hash>⟧.hash_input (T.number x) ≡ T.hash_input x }
{}

/// The same law for `Int`.
#[tactic(auto, using(crate::proofs::Agreement::agreements))]
pub fn signed_agreement_law<T: SignedStorage + Hash, const BITS: usize, U: UnsignedOf<T>>()
    ensures equality { (x y : ℤ) → IsTrue (⟦<Int<T, BITS, U> as PartialEq>⟧.eq x y) ↔ (x ≡ y) }
    ensures order { (x y : ℤ) → let compared = ⟦<Int<T, BITS, U> as Ord>⟧.cmp x y in
        (compared ≡ Equal) ↔ IsTrue (⟦<Int<T, BITS, U> as PartialEq>⟧.eq x y) }
    ensures hash { (x y : ℤ) → IsTrue (⟦<Int<T, BITS, U> as PartialEq>⟧.eq x y)
        → ⟦<Int<T, BITS, U> as Hash>⟧.hash_input x ≡ ⟦<Int<T, BITS, U> as Hash>⟧.hash_input y }
    ensures fed { (x : T) → ⟦<Int<T, BITS, U> as Hash>⟧.hash_input (T.number x) ≡ T.hash_input x }
{}

//! What `num_traits` states about a type, in the words of this crate. Each function proves its clauses, and does
//! nothing.

ghost use Rattle.std.specs.Prelude.{◌↔◌, ◌≤◌, ℤ};
ghost use Rattle.arbitrary_base.specs.Range.{InRange};

use crate::signed::Int;
use crate::unsigned::UInt;
use arbitrary_base::storage::{SignedStorage, UnsignedOf, UnsignedStorage};
use num_traits::Number;

/// An integer fits `UInt`, as `num_traits` means it, exactly if it is in range.
#[tactic(auto, using(arbitrary_base::proofs::modular::Representable::ranges))]
pub fn unsigned_range_law<T: UnsignedStorage, const BITS: usize>()
    ensures { (x : ℤ) → 1 ≤ BITS → ⟦<UInt<T, BITS> as Number>⟧.fits x ↔ InRange T.SIGNED BITS x }
{}

/// An integer fits `Int`, as `num_traits` means it, exactly if it is in range.
#[tactic(auto, using(arbitrary_base::proofs::modular::Representable::ranges))]
pub fn signed_range_law<T: SignedStorage, const BITS: usize, U: UnsignedOf<T>>()
    ensures { (x : ℤ) → 1 ≤ BITS → ⟦<Int<T, BITS, U> as Number>⟧.fits x ↔ InRange T.SIGNED BITS x }
{}

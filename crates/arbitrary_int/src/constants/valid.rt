//! The integer types of a valid width, as a trait. Generic code with this bound makes numbers of the type, and its
//! callers need not prove the width.

ghost use Rattle.std.specs.Prelude.{◌≤ℤ◌, ◌<ℤ◌, pos, true, false};
ghost use Rattle.arbitrary_base.specs.Range.{lo, hi};
ghost use Rattle.arbitrary_base.proofs.storages.RangeEnds.{ends-in_order};
ghost use Rattle.std.proofs.Common.{rules};

use arbitrary_base::storage::{
    BuiltinInteger, SignedOf, SignedStorage, UnsignedOf, UnsignedStorage,
};
use arbitrary_core::signed::Int;
use arbitrary_core::unsigned::UInt;
use arbitrary_traits::integer::Integer;
use arbitrary_widths::HasWidth;

/// An integer type of a valid width: `UInt` and `Int` at each width from 1 to that of their
/// storage, and the primitives. With this bound, calls such as `V::zero()` and `V::new(..)` need no
/// `requires` for the width.
pub trait ValidWidth: Integer {
    ghost valid_law: { Self.valid };

    // The ends of the range in order, with 0 between them.
    ghost ends_law: { let lowest = lo Self.IS_SIGNED Self.BITS in
        let highest = hi Self.IS_SIGNED Self.BITS in
        (lowest ≤ℤ pos 0) × (pos 0 ≤ℤ highest) × (lowest <ℤ highest) };
}

impl<T: BuiltinInteger + UnsignedStorage + HasWidth<BITS>, const BITS: usize> ValidWidth
    for UInt<T, BITS>
where
    T: UnsignedOf<T::Signed>,
    T::Signed: SignedOf<T>,
{
    ghost valid_law = { T.valid_law };

    ghost ends_law = { ends-in_order T.SIGNED BITS (T.valid_law.0) };
}

impl<T: SignedStorage + HasWidth<BITS>, const BITS: usize, U: UnsignedOf<T>> ValidWidth
    for Int<T, BITS, U> {
    ghost valid_law = { T.valid_law };

    ghost ends_law = { ends-in_order T.SIGNED BITS (T.valid_law.0) };
}

impl ValidWidth for u8 {
    ghost valid_law = { tt };

    ghost ends_law = { ends-in_order false 8 (Prim.search rules) };
}

impl ValidWidth for u16 {
    ghost valid_law = { tt };

    ghost ends_law = { ends-in_order false 16 (Prim.search rules) };
}

impl ValidWidth for u32 {
    ghost valid_law = { tt };

    ghost ends_law = { ends-in_order false 32 (Prim.search rules) };
}

impl ValidWidth for u64 {
    ghost valid_law = { tt };

    ghost ends_law = { ends-in_order false 64 (Prim.search rules) };
}

impl ValidWidth for u128 {
    ghost valid_law = { tt };

    ghost ends_law = { ends-in_order false 128 (Prim.search rules) };
}

impl ValidWidth for i8 {
    ghost valid_law = { tt };

    ghost ends_law = { ends-in_order true 8 (Prim.search rules) };
}

impl ValidWidth for i16 {
    ghost valid_law = { tt };

    ghost ends_law = { ends-in_order true 16 (Prim.search rules) };
}

impl ValidWidth for i32 {
    ghost valid_law = { tt };

    ghost ends_law = { ends-in_order true 32 (Prim.search rules) };
}

impl ValidWidth for i64 {
    ghost valid_law = { tt };

    ghost ends_law = { ends-in_order true 64 (Prim.search rules) };
}

impl ValidWidth for i128 {
    ghost valid_law = { tt };

    ghost ends_law = { ends-in_order true 128 (Prim.search rules) };
}

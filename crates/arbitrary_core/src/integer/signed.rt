//! The impls of `Numbered` and `Integer` for `Int`: the bodies of the calls, and the laws. The trait has the
//! clauses. `unsigned` has the same for `UInt`.

ghost use Rattle.std.specs.Prelude.{refl};
ghost use Rattle.std.specs.Int.{IsInRange};
ghost use Rattle.std.proofs.Common.{le_trans};
ghost use Rattle.arbitrary_base.proofs.operations.Assigned.{all_assigned};

use crate::signed::Int;
use crate::unsigned::UInt;
use arbitrary_base::ends::{highest, lowest};
use arbitrary_base::error::TryNewError;
use arbitrary_base::storage::{
    BuiltinInteger, Sealed, SignedOf, SignedStorage, Storage, UnsignedOf,
};
use arbitrary_base::truncation::{from_low_bits, to_u128_bits};
use arbitrary_traits::counterparts::{SignedCounterpart, UnsignedCounterpart};
use arbitrary_traits::integer::{Integer, SignedInteger};
use arbitrary_traits::numbered::Numbered;

impl<T: SignedStorage, const BITS: usize, U: UnsignedOf<T>> Sealed for Int<T, BITS, U> {}

impl<T: SignedStorage, const BITS: usize, U: UnsignedOf<T>> Numbered for Int<T, BITS, U> {
    const BITS: usize = BITS;

    const IS_SIGNED: bool = T::SIGNED;

    ghost BITS = { BITS };

    ghost IS_SIGNED = { T.SIGNED };

    ghost valid = { IsInRange 1 T.WIDTH BITS };

    ghost number = { λ x. x };

    fn to_u128_bits(self) -> u128 {
        to_u128_bits(Int::<T, BITS, U>::value(self))
    }

    fn from_u128_bits(pattern: u128) -> Int<T, BITS, U> {
        Int::<T, BITS, U>::from_bits(from_low_bits(pattern, BITS))
    }

    ghost width_law = { λ h. (h.0, le_trans h.1 (T.width_law.1)) };
}

impl<T: SignedStorage, const BITS: usize, U: UnsignedOf<T>> Integer for Int<T, BITS, U> {
    type UnderlyingType = T;

    type UnsignedInteger = UInt<U, BITS>;

    type SignedInteger = Int<T, BITS, U>;

    ghost underlying = { T.number };

    ghost unsigned_number = { λ x. x };

    fn min_value() -> Int<T, BITS, U> {
        Int::<T, BITS, U>::new(lowest(BITS))
    }

    fn max_value() -> Int<T, BITS, U> {
        Int::<T, BITS, U>::new(highest(BITS))
    }

    fn zero() -> Int<T, BITS, U> {
        Int::<T, BITS, U>::new(from_low_bits(0, BITS))
    }

    fn new(value: T) -> Int<T, BITS, U> {
        Int::<T, BITS, U>::new(value)
    }

    fn try_new(value: T) -> Result<Int<T, BITS, U>, TryNewError> {
        Int::<T, BITS, U>::try_new(value)
    }

    fn value(self) -> T {
        Int::<T, BITS, U>::value(self)
    }

    fn to_unsigned(self) -> UInt<U, BITS> {
        UInt::<U, BITS>::new(self.to_bits())
    }

    fn from_unsigned(value: UInt<U, BITS>) -> Int<T, BITS, U> {
        Int::<T, BITS, U>::from_bits(UInt::<U, BITS>::value(value))
    }

    ghost clone_law = { λ a b h. h };

    ghost infallible_law = { λ _. tt };

    ghost eq_law = { λ a b. refl };

    ghost cmp_law = { λ a b. refl };

    ghost output_law = { λ a. refl };

    ghost debug_output_law = { λ a. refl };

    ghost can_add_law = { λ a b h _ _. h };

    ghost add_law = { λ a b r h f. h.0 };

    ghost can_sub_law = { λ a b h _ _. h };

    ghost sub_law = { λ a b r h f. h.0 };

    ghost can_mul_law = { λ a b h _ _ _. h };

    ghost mul_law = { λ a b r h f. h.0 };

    ghost can_div_law = { λ a b f n g. (n, λ h k. g) };

    ghost div_law = { λ a b r h. h };

    ghost can_bitand_law = { λ a b. tt };

    ghost bitand_law = { λ a b r h f g. h.0 };

    ghost can_bitor_law = { λ a b. tt };

    ghost bitor_law = { λ a b r h f g. h.0 };

    ghost can_bitxor_law = { λ a b. tt };

    ghost bitxor_law = { λ a b r h f g. h.0 };

    ghost can_not_law = { λ a. tt };

    ghost not_law = { λ a r h f. h.0 };

    ghost assign_law = { all_assigned };
}

impl<T: SignedStorage, const BITS: usize, U: UnsignedOf<T>> SignedInteger for Int<T, BITS, U> {
    ghost signed_law = { T.signed_law };

    ghost can_neg_law = { λ a h. h };

    ghost neg_law = { λ a r h. h };
}

impl<T: SignedStorage, const BITS: usize, U: UnsignedOf<T>> SignedCounterpart<Int<T, BITS, U>>
    for Int<T, BITS, U> {
    ghost width_law = { refl };
}

impl<T: SignedStorage, const BITS: usize, U: BuiltinInteger + UnsignedOf<T>> UnsignedCounterpart<
    Int<T, BITS, U>,
> for UInt<U, BITS>
where
    U: UnsignedOf<U::Signed>,
    U::Signed: SignedOf<U>,
{
    ghost width_law = { refl };

    ghost number_law = { λ x. refl };
}

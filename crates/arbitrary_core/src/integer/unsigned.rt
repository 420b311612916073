//! The impls of `Numbered` and `Integer` for `UInt`: the bodies of the calls, and the laws. The trait has the
//! clauses. `signed` has the same for `Int`.

ghost use Rattle.std.specs.Prelude.{refl};
ghost use Rattle.std.specs.Int.{IsInRange};
ghost use Rattle.std.proofs.Common.{le_trans};
ghost use Rattle.std.proofs.lemmas.Nat.{pow_below};
ghost use Rattle.arbitrary_base.proofs.operations.Assigned.{all_assigned};

use crate::signed::Int;
use crate::unsigned::UInt;
use arbitrary_base::ends::{highest, lowest};
use arbitrary_base::error::TryNewError;
use arbitrary_base::storage::{
    BuiltinInteger, Sealed, SignedOf, Storage, UnsignedOf, UnsignedStorage,
};
use arbitrary_base::truncation::{from_low_bits, to_u128_bits};
use arbitrary_traits::counterparts::{SignedCounterpart, UnsignedCounterpart};
use arbitrary_traits::integer::{Integer, UnsignedInteger};
use arbitrary_traits::numbered::Numbered;

impl<T: UnsignedStorage, const BITS: usize> Sealed for UInt<T, BITS> {}

impl<T: UnsignedStorage, const BITS: usize> Numbered for UInt<T, BITS> {
    const BITS: usize = BITS;

    const IS_SIGNED: bool = T::SIGNED;

    ghost BITS = { BITS };

    ghost IS_SIGNED = { T.SIGNED };

    ghost valid = { IsInRange 1 T.WIDTH BITS };

    ghost number = { λ x. x };

    fn to_u128_bits(self) -> u128 {
        to_u128_bits(UInt::<T, BITS>::value(self))
    }

    fn from_u128_bits(pattern: u128) -> UInt<T, BITS> {
        UInt::<T, BITS>::new(from_low_bits(pattern, BITS))
    }

    ghost width_law = { λ h. (h.0, le_trans h.1 (T.width_law.1)) };
}

impl<T: BuiltinInteger + UnsignedStorage, const BITS: usize> Integer for UInt<T, BITS>
where
    T: UnsignedOf<T::Signed>,
    T::Signed: SignedOf<T>,
{
    type UnderlyingType = T;

    type UnsignedInteger = UInt<T, BITS>;

    type SignedInteger = Int<T::Signed, BITS, T>;

    ghost underlying = { T.number };

    ghost unsigned_number = { λ x. x };

    fn min_value() -> UInt<T, BITS> {
        UInt::<T, BITS>::new(lowest(BITS))
    }

    fn max_value() -> UInt<T, BITS> {
        UInt::<T, BITS>::new(highest(BITS))
    }

    fn zero() -> UInt<T, BITS> {
        UInt::<T, BITS>::new(from_low_bits(0, BITS))
    }

    fn new(value: T) -> UInt<T, BITS> {
        UInt::<T, BITS>::new(value)
    }

    fn try_new(value: T) -> Result<UInt<T, BITS>, TryNewError> {
        UInt::<T, BITS>::try_new(value)
    }

    fn value(self) -> T {
        UInt::<T, BITS>::value(self)
    }

    fn to_unsigned(self) -> UInt<T, BITS> {
        UInt::<T, BITS>::new(UInt::<T, BITS>::value(self))
    }

    fn from_unsigned(value: UInt<T, BITS>) -> UInt<T, BITS> {
        UInt::<T, BITS>::new(UInt::<T, BITS>::value(value))
    }

    ghost clone_law = { λ a b h. h };

    ghost infallible_law = { λ _. tt };

    ghost eq_law = { λ a b. refl };

    ghost cmp_law = { λ a b. refl };

    ghost output_law = { λ a. refl };

    ghost debug_output_law = { λ a. refl };

    ghost can_add_law = { λ a b h _ _. h };

    ghost add_law = { λ a b r h f. h.0 };

    ghost can_sub_law = { λ a b h _ _. h };

    ghost sub_law = { λ a b r h f. h.0 };

    ghost can_mul_law = { λ a b h _ _. h };

    ghost mul_law = { λ a b r h f. h };

    ghost can_div_law = { λ a b f n g. (n, λ h k. g) };

    ghost div_law = { λ a b r h. h };

    ghost can_bitand_law = { λ a b. tt };

    ghost bitand_law = { λ a b r h f g. h.0 };

    ghost can_bitor_law = { λ a b. tt };

    ghost bitor_law = { λ a b r h f g. h.0 };

    ghost can_bitxor_law = { λ a b. tt };

    ghost bitxor_law = { λ a b r h f g. h.0 };

    ghost can_not_law = { λ a. tt };

    ghost not_law = { λ a r h f. h.0 };

    ghost assign_law = { all_assigned };
}

impl<T: BuiltinInteger + UnsignedStorage, const BITS: usize> UnsignedInteger for UInt<T, BITS>
where
    T: UnsignedOf<T::Signed>,
    T::Signed: SignedOf<T>,
{
    ghost unsigned_law = { T.unsigned_law };

    ghost one_law = { λ v. pow_below 0 BITS v.0 };
}

impl<T: BuiltinInteger + UnsignedStorage, const BITS: usize> UnsignedCounterpart<UInt<T, BITS>>
    for UInt<T, BITS>
where
    T: UnsignedOf<T::Signed>,
    T::Signed: SignedOf<T>,
{
    ghost width_law = { refl };

    ghost number_law = { λ x. refl };
}

impl<T: BuiltinInteger + UnsignedStorage, const BITS: usize> SignedCounterpart<UInt<T, BITS>>
    for Int<T::Signed, BITS, T>
where
    T: UnsignedOf<T::Signed>,
    T::Signed: SignedOf<T>,
{
    ghost width_law = { refl };
}

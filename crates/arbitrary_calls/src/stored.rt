//! Where the numbers of `UInt` and `Int` are stored.

ghost use Rattle.std.specs.Prelude.{refl, ◌≡◌, ◌≤◌};
ghost use Rattle.arbitrary_base.specs.Range.{InRange};

use arbitrary_base::storage::{SignedStorage, Storage, UnsignedOf, UnsignedStorage};
use arbitrary_core::signed::Int;
use arbitrary_core::unsigned::UInt;
use arbitrary_traits::numbered::Numbered;

/// An integer of `BITS` bits that is stored in a primitive: `UInt` and `Int`.
pub trait Stored: Numbered {
    /// The primitive that keeps the number. It is `UnderlyingType`, known to be a storage.
    type Representation: Storage;

    /// The number, in its storage.
    fn to_storage(self) -> Self::Representation
        ensures number { Self.Representation.number result ≡ Self.number self }
        ensures self_in_range { InRange Self.Representation.SIGNED Self.BITS (Self.number self) }
        ensures some { 1 ≤ Self.BITS }
        ensures storage { Self.BITS ≤ Self.Representation.WIDTH }
        ensures width { Self.valid };

    /// The value of a storage's number, which is in range. The width is valid.
    fn from_storage(value: Self::Representation) -> Self
        requires some { 1 ≤ Self.BITS }
        requires storage { Self.BITS ≤ Self.Representation.WIDTH }
        requires value_in_range { let given = Self.Representation.number value in
            InRange Self.Representation.SIGNED Self.BITS given }
        ensures { Self.number result ≡ Self.Representation.number value };

    // A valid width is one that the storage has room for.
    ghost width_law: { Self.valid → (1 ≤ Self.BITS) × (Self.BITS ≤ Self.Representation.WIDTH) };

    ghost sign_law: { Self.Representation.SIGNED ≡ Self.IS_SIGNED };
}

impl<T: UnsignedStorage, const BITS: usize> Stored for UInt<T, BITS> {
    type Representation = T;

    fn to_storage(self) -> T {
        UInt::<T, BITS>::value(self)
    }

    fn from_storage(value: T) -> UInt<T, BITS> {
        UInt::<T, BITS>::new(value)
    }

    ghost width_law = { λ h. h };

    ghost sign_law = { refl };
}

impl<T: SignedStorage, const BITS: usize, U: UnsignedOf<T>> Stored for Int<T, BITS, U> {
    type Representation = T;

    fn to_storage(self) -> T {
        Int::<T, BITS, U>::value(self)
    }

    fn from_storage(value: T) -> Int<T, BITS, U> {
        Int::<T, BITS, U>::new(value)
    }

    ghost width_law = { λ h. h };

    ghost sign_law = { refl };
}

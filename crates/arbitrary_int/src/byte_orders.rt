//! `ByteOrders`: integers of whole bytes, and their bytes in both orders.

ghost use Rattle.std.specs.Prelude.{◌≡◌, ◌-◌, ◌*◌, ◌/◌, ◌%◌, ◌^◌, ◌<◌, ℕ, ℤ, pos, false, true, get_or, refl, reverse, unsigned_abs};
ghost use Rattle.std.proofs.Common.{lit≤};
ghost use Rattle.arbitrary_base.specs.Range.{InRange};
ghost use Rattle.arbitrary_base.specs.Residue.{Congruent, wrap};
ghost use Rattle.arbitrary_base.specs.ByteLists.{bytes, bytes_number};

use arbitrary_base::byte_lists::{all_bytes, pattern_of};
use arbitrary_core::signed::Int;
use arbitrary_core::unsigned::UInt;
use arbitrary_traits::numbered::Numbered;

/// An integer of `N` whole bytes: `BITS` is `8 * N`, and the storage has more bits.
///
/// The bytes are those of two's complement in `BITS` bits. In contracts, `bytes N` of a number
/// lists them lowest first, which is the little-endian order. The big-endian order is its reverse.
/// The native order is little-endian. Each list of `N` bytes is that of one value.
pub trait ByteOrders<const N: usize>: Numbered {
    ghost width_law: { Self.BITS ≡ 8 * N };

    ghost valid_law: { Self.valid };

    /// The bytes, lowest first. For an unsigned type, their number is that of the value.
    final fn to_le_bytes(self) -> [u8; N]
        ensures bytes { result ≡ bytes N (Self.number self) }
        ensures unsigned { let spelled = pos (bytes_number result) in
            Self.IS_SIGNED ≡ false → spelled ≡ Self.number self }
        ensures signed { let spelled = pos (bytes_number result) in
            Self.IS_SIGNED ≡ true → Congruent Self.BITS spelled (Self.number self) }
        ensures plain { let number = Self.number self in
            Self.IS_SIGNED ≡ false → (i : ℕ) → i < N
            → get_or result i 0 ≡ unsigned_abs number / 256 ^ i % 256 }
        ensures self_in_range { InRange Self.IS_SIGNED Self.BITS (Self.number self) }
    {
        let all = all_bytes(self.to_u128_bits());
        let mut list = [0; N];
        list.copy_from_slice(&all[..N]);
        list
    }

    /// The bytes, highest first. For an unsigned type, their number is that of the value.
    final fn to_be_bytes(self) -> [u8; N]
        ensures bytes { result ≡ reverse (bytes N (Self.number self)) }
        ensures unsigned { let spelled = pos (bytes_number (reverse result)) in
            Self.IS_SIGNED ≡ false → spelled ≡ Self.number self }
        ensures signed { let spelled = pos (bytes_number (reverse result)) in
            Self.IS_SIGNED ≡ true → Congruent Self.BITS spelled (Self.number self) }
        ensures plain { let number = Self.number self in
            Self.IS_SIGNED ≡ false → (i : ℕ) → i < N
            → get_or result i 0 ≡ unsigned_abs number / 256 ^ (N - 1 - i) % 256 }
        ensures self_in_range { InRange Self.IS_SIGNED Self.BITS (Self.number self) }
    {
        let mut list = self.to_le_bytes();
        list.reverse();
        list
    }

    /// The bytes in native order: `to_le_bytes`.
    final fn to_ne_bytes(self) -> [u8; N]
        ensures bytes { result ≡ bytes N (Self.number self) }
        ensures unsigned { let spelled = pos (bytes_number result) in
            Self.IS_SIGNED ≡ false → spelled ≡ Self.number self }
        ensures signed { let spelled = pos (bytes_number result) in
            Self.IS_SIGNED ≡ true → Congruent Self.BITS spelled (Self.number self) }
        ensures plain { let number = Self.number self in
            Self.IS_SIGNED ≡ false → (i : ℕ) → i < N
            → get_or result i 0 ≡ unsigned_abs number / 256 ^ i % 256 }
        ensures self_in_range { InRange Self.IS_SIGNED Self.BITS (Self.number self) }
    {
        self.to_le_bytes()
    }

    /// The value with these bytes, lowest first.
    final fn from_le_bytes(list: [u8; N]) -> Self
        ensures bytes { bytes N (Self.number result) ≡ list.entry }
        ensures number { let spelled = pos (bytes_number list.entry) in
            Self.number result ≡ wrap Self.IS_SIGNED Self.BITS spelled }
        ensures unsigned { let spelled = pos (bytes_number list.entry) in
            Self.IS_SIGNED ≡ false → Self.number result ≡ spelled }
        ensures signed { let spelled = pos (bytes_number list.entry) in
            Self.IS_SIGNED ≡ true → Congruent Self.BITS (Self.number result) spelled }
        ensures only { (x : ℤ) → let own = bytes N x in
            InRange Self.IS_SIGNED Self.BITS x → own ≡ list.entry → Self.number result ≡ x }
    {
        Self::from_u128_bits(pattern_of(&list))
    }

    /// The value with these bytes, highest first.
    final fn from_be_bytes(list: [u8; N]) -> Self
        ensures bytes { reverse (bytes N (Self.number result)) ≡ list.entry }
        ensures number { let spelled = pos (bytes_number (reverse list.entry)) in
            Self.number result ≡ wrap Self.IS_SIGNED Self.BITS spelled }
        ensures unsigned { let spelled = pos (bytes_number (reverse list.entry)) in
            Self.IS_SIGNED ≡ false → Self.number result ≡ spelled }
        ensures signed { let spelled = pos (bytes_number (reverse list.entry)) in
            Self.IS_SIGNED ≡ true → Congruent Self.BITS (Self.number result) spelled }
        ensures only { (x : ℤ) → let own = reverse (bytes N x) in
            InRange Self.IS_SIGNED Self.BITS x → own ≡ list.entry → Self.number result ≡ x }
    {
        let mut turned = list;
        turned.reverse();
        Self::from_le_bytes(turned)
    }

    /// The value with these bytes in native order: `from_le_bytes`.
    final fn from_ne_bytes(list: [u8; N]) -> Self
        ensures bytes { bytes N (Self.number result) ≡ list.entry }
        ensures number { let spelled = pos (bytes_number list.entry) in
            Self.number result ≡ wrap Self.IS_SIGNED Self.BITS spelled }
        ensures unsigned { let spelled = pos (bytes_number list.entry) in
            Self.IS_SIGNED ≡ false → Self.number result ≡ spelled }
        ensures signed { let spelled = pos (bytes_number list.entry) in
            Self.IS_SIGNED ≡ true → Congruent Self.BITS (Self.number result) spelled }
        ensures only { (x : ℤ) → let own = bytes N x in
            InRange Self.IS_SIGNED Self.BITS x → own ≡ list.entry → Self.number result ≡ x }
    {
        Self::from_le_bytes(list)
    }

    /// The value with the bytes in reverse order.
    final fn swap_bytes(self) -> Self
        ensures bytes { bytes N (Self.number result) ≡ reverse (bytes N (Self.number self)) }
        ensures number { let spelled = pos (bytes_number (reverse (bytes N (Self.number self)))) in
            Self.number result ≡ wrap Self.IS_SIGNED Self.BITS spelled }
        ensures undo { (y : ℤ) → let turned = reverse (bytes N y) in
            InRange Self.IS_SIGNED Self.BITS y → bytes N (Self.number self) ≡ turned
            → Self.number result ≡ y }
        ensures self_in_range { InRange Self.IS_SIGNED Self.BITS (Self.number self) }
    {
        Self::from_be_bytes(self.to_le_bytes())
    }

    /// The value itself, because the native order is little-endian.
    final fn to_le(self) -> Self
        ensures { result ≡ self }
    {
        self
    }

    /// `swap_bytes`, because the native order is little-endian.
    final fn to_be(self) -> Self
        ensures bytes { bytes N (Self.number result) ≡ reverse (bytes N (Self.number self)) }
        ensures number { let spelled = pos (bytes_number (reverse (bytes N (Self.number self)))) in
            Self.number result ≡ wrap Self.IS_SIGNED Self.BITS spelled }
        ensures undo { (y : ℤ) → let turned = reverse (bytes N y) in
            InRange Self.IS_SIGNED Self.BITS y → bytes N (Self.number self) ≡ turned
            → Self.number result ≡ y }
        ensures self_in_range { InRange Self.IS_SIGNED Self.BITS (Self.number self) }
    {
        self.swap_bytes()
    }

    /// The value itself, because the native order is little-endian.
    final fn from_le(value: Self) -> Self
        ensures { result ≡ value }
    {
        value
    }

    /// `swap_bytes`, because the native order is little-endian.
    final fn from_be(value: Self) -> Self
        ensures bytes { bytes N (Self.number result) ≡ reverse (bytes N (Self.number value)) }
        ensures number { let spelled = pos (bytes_number (reverse (bytes N (Self.number value)))) in
            Self.number result ≡ wrap Self.IS_SIGNED Self.BITS spelled }
        ensures undo { (y : ℤ) → let turned = reverse (bytes N y) in
            InRange Self.IS_SIGNED Self.BITS y → bytes N (Self.number value) ≡ turned
            → Self.number result ≡ y }
        ensures value_in_range { InRange Self.IS_SIGNED Self.BITS (Self.number value) }
    {
        value.swap_bytes()
    }
}

impl ByteOrders<3> for UInt<u32, 24> {
    ghost width_law = { refl };

    ghost valid_law = { (lit≤ tt, lit≤ tt) };
}

impl ByteOrders<3> for Int<i32, 24> {
    ghost width_law = { refl };

    ghost valid_law = { (lit≤ tt, lit≤ tt) };
}

impl ByteOrders<3> for UInt<u64, 24> {
    ghost width_law = { refl };

    ghost valid_law = { (lit≤ tt, lit≤ tt) };
}

impl ByteOrders<3> for Int<i64, 24> {
    ghost width_law = { refl };

    ghost valid_law = { (lit≤ tt, lit≤ tt) };
}

impl ByteOrders<3> for UInt<u128, 24> {
    ghost width_law = { refl };

    ghost valid_law = { (lit≤ tt, lit≤ tt) };
}

impl ByteOrders<3> for Int<i128, 24> {
    ghost width_law = { refl };

    ghost valid_law = { (lit≤ tt, lit≤ tt) };
}

impl ByteOrders<5> for UInt<u64, 40> {
    ghost width_law = { refl };

    ghost valid_law = { (lit≤ tt, lit≤ tt) };
}

impl ByteOrders<5> for Int<i64, 40> {
    ghost width_law = { refl };

    ghost valid_law = { (lit≤ tt, lit≤ tt) };
}

impl ByteOrders<5> for UInt<u128, 40> {
    ghost width_law = { refl };

    ghost valid_law = { (lit≤ tt, lit≤ tt) };
}

impl ByteOrders<5> for Int<i128, 40> {
    ghost width_law = { refl };

    ghost valid_law = { (lit≤ tt, lit≤ tt) };
}

impl ByteOrders<6> for UInt<u64, 48> {
    ghost width_law = { refl };

    ghost valid_law = { (lit≤ tt, lit≤ tt) };
}

impl ByteOrders<6> for Int<i64, 48> {
    ghost width_law = { refl };

    ghost valid_law = { (lit≤ tt, lit≤ tt) };
}

impl ByteOrders<6> for UInt<u128, 48> {
    ghost width_law = { refl };

    ghost valid_law = { (lit≤ tt, lit≤ tt) };
}

impl ByteOrders<6> for Int<i128, 48> {
    ghost width_law = { refl };

    ghost valid_law = { (lit≤ tt, lit≤ tt) };
}

impl ByteOrders<7> for UInt<u64, 56> {
    ghost width_law = { refl };

    ghost valid_law = { (lit≤ tt, lit≤ tt) };
}

impl ByteOrders<7> for Int<i64, 56> {
    ghost width_law = { refl };

    ghost valid_law = { (lit≤ tt, lit≤ tt) };
}

impl ByteOrders<7> for UInt<u128, 56> {
    ghost width_law = { refl };

    ghost valid_law = { (lit≤ tt, lit≤ tt) };
}

impl ByteOrders<7> for Int<i128, 56> {
    ghost width_law = { refl };

    ghost valid_law = { (lit≤ tt, lit≤ tt) };
}

impl ByteOrders<9> for UInt<u128, 72> {
    ghost width_law = { refl };

    ghost valid_law = { (lit≤ tt, lit≤ tt) };
}

impl ByteOrders<9> for Int<i128, 72> {
    ghost width_law = { refl };

    ghost valid_law = { (lit≤ tt, lit≤ tt) };
}

impl ByteOrders<10> for UInt<u128, 80> {
    ghost width_law = { refl };

    ghost valid_law = { (lit≤ tt, lit≤ tt) };
}

impl ByteOrders<10> for Int<i128, 80> {
    ghost width_law = { refl };

    ghost valid_law = { (lit≤ tt, lit≤ tt) };
}

impl ByteOrders<11> for UInt<u128, 88> {
    ghost width_law = { refl };

    ghost valid_law = { (lit≤ tt, lit≤ tt) };
}

impl ByteOrders<11> for Int<i128, 88> {
    ghost width_law = { refl };

    ghost valid_law = { (lit≤ tt, lit≤ tt) };
}

impl ByteOrders<12> for UInt<u128, 96> {
    ghost width_law = { refl };

    ghost valid_law = { (lit≤ tt, lit≤ tt) };
}

impl ByteOrders<12> for Int<i128, 96> {
    ghost width_law = { refl };

    ghost valid_law = { (lit≤ tt, lit≤ tt) };
}

impl ByteOrders<13> for UInt<u128, 104> {
    ghost width_law = { refl };

    ghost valid_law = { (lit≤ tt, lit≤ tt) };
}

impl ByteOrders<13> for Int<i128, 104> {
    ghost width_law = { refl };

    ghost valid_law = { (lit≤ tt, lit≤ tt) };
}

impl ByteOrders<14> for UInt<u128, 112> {
    ghost width_law = { refl };

    ghost valid_law = { (lit≤ tt, lit≤ tt) };
}

impl ByteOrders<14> for Int<i128, 112> {
    ghost width_law = { refl };

    ghost valid_law = { (lit≤ tt, lit≤ tt) };
}

impl ByteOrders<15> for UInt<u128, 120> {
    ghost width_law = { refl };

    ghost valid_law = { (lit≤ tt, lit≤ tt) };
}

impl ByteOrders<15> for Int<i128, 120> {
    ghost width_law = { refl };

    ghost valid_law = { (lit≤ tt, lit≤ tt) };
}

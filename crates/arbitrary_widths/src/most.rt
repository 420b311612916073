//! Traits of the storages of at most 8, 16, 32, 64 and 128 bits, for the impls of `FitsIn`.

ghost use Rattle.std.specs.Prelude.{◌≤◌};
ghost use Rattle.std.proofs.Common.{lit≤};

use arbitrary_base::storage::Storage;

/// A storage of at most 128 bits, which is any storage.
pub trait AtMost128: Storage {
    ghost most_128_law: { Self.WIDTH ≤ 128 };
}

/// A storage of at most 64 bits.
pub trait AtMost64: AtMost128 {
    ghost most_64_law: { Self.WIDTH ≤ 64 };
}

/// A storage of at most 32 bits.
pub trait AtMost32: AtMost64 {
    ghost most_32_law: { Self.WIDTH ≤ 32 };
}

/// A storage of at most 16 bits.
pub trait AtMost16: AtMost32 {
    ghost most_16_law: { Self.WIDTH ≤ 16 };
}

/// A storage of at most 8 bits.
pub trait AtMost8: AtMost16 {
    ghost most_8_law: { Self.WIDTH ≤ 8 };
}

impl AtMost8 for u8 {
    ghost most_8_law = { lit≤ tt };
}

impl AtMost8 for i8 {
    ghost most_8_law = { lit≤ tt };
}

impl AtMost16 for u8 {
    ghost most_16_law = { lit≤ tt };
}

impl AtMost16 for u16 {
    ghost most_16_law = { lit≤ tt };
}

impl AtMost16 for i8 {
    ghost most_16_law = { lit≤ tt };
}

impl AtMost16 for i16 {
    ghost most_16_law = { lit≤ tt };
}

impl AtMost32 for u8 {
    ghost most_32_law = { lit≤ tt };
}

impl AtMost32 for u16 {
    ghost most_32_law = { lit≤ tt };
}

impl AtMost32 for u32 {
    ghost most_32_law = { lit≤ tt };
}

impl AtMost32 for i8 {
    ghost most_32_law = { lit≤ tt };
}

impl AtMost32 for i16 {
    ghost most_32_law = { lit≤ tt };
}

impl AtMost32 for i32 {
    ghost most_32_law = { lit≤ tt };
}

impl AtMost64 for u8 {
    ghost most_64_law = { lit≤ tt };
}

impl AtMost64 for u16 {
    ghost most_64_law = { lit≤ tt };
}

impl AtMost64 for u32 {
    ghost most_64_law = { lit≤ tt };
}

impl AtMost64 for u64 {
    ghost most_64_law = { lit≤ tt };
}

impl AtMost64 for i8 {
    ghost most_64_law = { lit≤ tt };
}

impl AtMost64 for i16 {
    ghost most_64_law = { lit≤ tt };
}

impl AtMost64 for i32 {
    ghost most_64_law = { lit≤ tt };
}

impl AtMost64 for i64 {
    ghost most_64_law = { lit≤ tt };
}

impl AtMost128 for u8 {
    ghost most_128_law = { lit≤ tt };
}

impl AtMost128 for u16 {
    ghost most_128_law = { lit≤ tt };
}

impl AtMost128 for u32 {
    ghost most_128_law = { lit≤ tt };
}

impl AtMost128 for u64 {
    ghost most_128_law = { lit≤ tt };
}

impl AtMost128 for u128 {
    ghost most_128_law = { lit≤ tt };
}

impl AtMost128 for i8 {
    ghost most_128_law = { lit≤ tt };
}

impl AtMost128 for i16 {
    ghost most_128_law = { lit≤ tt };
}

impl AtMost128 for i32 {
    ghost most_128_law = { lit≤ tt };
}

impl AtMost128 for i64 {
    ghost most_128_law = { lit≤ tt };
}

impl AtMost128 for i128 {
    ghost most_128_law = { lit≤ tt };
}

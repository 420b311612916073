//! Traits of the storages of at least 8, 16, 32, 64 and 128 bits, for the impls of `HasWidth`.

ghost use Rattle.std.specs.Prelude.{◌≤◌};
ghost use Rattle.std.proofs.Common.{lit≤};

use arbitrary_base::storage::Storage;

/// A storage of at least 8 bits, which is any storage.
pub trait AtLeast8: Storage {
    ghost room_8_law: { 8 ≤ Self.WIDTH };
}

/// A storage of at least 16 bits.
pub trait AtLeast16: AtLeast8 {
    ghost room_16_law: { 16 ≤ Self.WIDTH };
}

/// A storage of at least 32 bits.
pub trait AtLeast32: AtLeast16 {
    ghost room_32_law: { 32 ≤ Self.WIDTH };
}

/// A storage of at least 64 bits.
pub trait AtLeast64: AtLeast32 {
    ghost room_64_law: { 64 ≤ Self.WIDTH };
}

/// A storage of at least 128 bits.
pub trait AtLeast128: AtLeast64 {
    ghost room_128_law: { 128 ≤ Self.WIDTH };
}

impl AtLeast8 for u8 {
    ghost room_8_law = { lit≤ tt };
}

impl AtLeast8 for u16 {
    ghost room_8_law = { lit≤ tt };
}

impl AtLeast8 for u32 {
    ghost room_8_law = { lit≤ tt };
}

impl AtLeast8 for u64 {
    ghost room_8_law = { lit≤ tt };
}

impl AtLeast8 for u128 {
    ghost room_8_law = { lit≤ tt };
}

impl AtLeast8 for i8 {
    ghost room_8_law = { lit≤ tt };
}

impl AtLeast8 for i16 {
    ghost room_8_law = { lit≤ tt };
}

impl AtLeast8 for i32 {
    ghost room_8_law = { lit≤ tt };
}

impl AtLeast8 for i64 {
    ghost room_8_law = { lit≤ tt };
}

impl AtLeast8 for i128 {
    ghost room_8_law = { lit≤ tt };
}

impl AtLeast16 for u16 {
    ghost room_16_law = { lit≤ tt };
}

impl AtLeast16 for u32 {
    ghost room_16_law = { lit≤ tt };
}

impl AtLeast16 for u64 {
    ghost room_16_law = { lit≤ tt };
}

impl AtLeast16 for u128 {
    ghost room_16_law = { lit≤ tt };
}

impl AtLeast16 for i16 {
    ghost room_16_law = { lit≤ tt };
}

impl AtLeast16 for i32 {
    ghost room_16_law = { lit≤ tt };
}

impl AtLeast16 for i64 {
    ghost room_16_law = { lit≤ tt };
}

impl AtLeast16 for i128 {
    ghost room_16_law = { lit≤ tt };
}

impl AtLeast32 for u32 {
    ghost room_32_law = { lit≤ tt };
}

impl AtLeast32 for u64 {
    ghost room_32_law = { lit≤ tt };
}

impl AtLeast32 for u128 {
    ghost room_32_law = { lit≤ tt };
}

impl AtLeast32 for i32 {
    ghost room_32_law = { lit≤ tt };
}

impl AtLeast32 for i64 {
    ghost room_32_law = { lit≤ tt };
}

impl AtLeast32 for i128 {
    ghost room_32_law = { lit≤ tt };
}

impl AtLeast64 for u64 {
    ghost room_64_law = { lit≤ tt };
}

impl AtLeast64 for u128 {
    ghost room_64_law = { lit≤ tt };
}

impl AtLeast64 for i64 {
    ghost room_64_law = { lit≤ tt };
}

impl AtLeast64 for i128 {
    ghost room_64_law = { lit≤ tt };
}

impl AtLeast128 for u128 {
    ghost room_128_law = { lit≤ tt };
}

impl AtLeast128 for i128 {
    ghost room_128_law = { lit≤ tt };
}

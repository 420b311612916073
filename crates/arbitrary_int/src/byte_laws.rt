//! Laws of the calls on bytes. Each function makes the calls and ensures the law. `to_u128_bits` ensures that a
//! number is in range.
//!
//! A clause here is about numbers alone, so a body without the calls could meet it too. The proof uses only what
//! the calls ensure, so a caller of the same calls can rely on the law.

ghost use Rattle.std.specs.Prelude.{◌≡◌, ◌↔◌, IsTrue, MatchOption};

use crate::borsh::{BorshDeserialize, BorshSerialize};
use crate::byte_orders::ByteOrders;
use arbitrary_calls::stored::Stored;

/// Reversing the bytes twice returns the value.
pub fn swapped_twice<V: ByteOrders<N>, const N: usize>(value: V) -> V
    ensures { V.number result ≡ V.number value }
{
    let _known = value.to_u128_bits();
    let twice = value.swap_bytes().swap_bytes();
    let _twice = twice.to_u128_bits();
    twice
}

/// The little-endian bytes of a value are read back as the value.
pub fn through_le_bytes<V: ByteOrders<N>, const N: usize>(value: V) -> V
    ensures { V.number result ≡ V.number value }
{
    let _known = value.to_u128_bits();
    V::from_le_bytes(value.to_le_bytes())
}

/// The big-endian bytes of a value are read back as the value.
pub fn through_be_bytes<V: ByteOrders<N>, const N: usize>(value: V) -> V
    ensures { V.number result ≡ V.number value }
{
    let _known = value.to_u128_bits();
    V::from_be_bytes(value.to_be_bytes())
}

/// The bytes of a value in a stream are canonical, and are read back as the value.
pub fn through_borsh_bytes<V: Stored>(value: V) -> Option<V>
    ensures { MatchOption result ⊥ (λ x. V.number x ≡ V.number value) }
{
    let _known = value.to_u128_bits();
    let mut bytes = [0; 16];
    let count = value.to_borsh_bytes(&mut bytes);
    let read = V::from_borsh_bytes(&bytes[..count])?;
    let _read = read.to_u128_bits();
    Some(read)
}

/// Two values have the same bytes in a stream exactly if they are equal.
pub fn share_borsh_bytes<V: Stored>(x: V, y: V) -> bool
    ensures { IsTrue result ↔ (V.number x ≡ V.number y) }
{
    let _x = x.to_u128_bits();
    let _y = y.to_u128_bits();
    let mut first = [0; 16];
    let mut second = [0; 16];
    let first_count = x.to_borsh_bytes(&mut first);
    let second_count = y.to_borsh_bytes(&mut second);
    first[..first_count] == second[..second_count]
}

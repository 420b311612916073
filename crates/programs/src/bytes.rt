//! The bytes of a number, in either order.

ghost use Rattle.std.specs.Prelude.{◌≡◌, ◌/◌, ◌%◌, ◌*◌, ◌+◌, ◌<◌, ◌<ℤ◌, pos, true, unsigned_abs, IsTrue, OnOk, Some};
ghost use Rattle.std.specs.HashMap.{get};
ghost use Rattle.std.specs.Ordering.{int_eq};
ghost use Rattle.arbitrary_int.specs.Field.{field};
ghost use Rattle.arbitrary_int.specs.Residue.{wrap};

use arbitrary_int::prelude::*;
use std::alloc::AllocFailed;
use std::collections::HashMap;

pub fn first_big_endian_byte(x: u24) -> u8
    ensures { pos result ≡ pos (unsigned_abs x / 65536) }
{
    let bytes: [u8; 3] = x.to_be_bytes();
    bytes[0]
}

pub fn first_little_endian_byte(x: u24) -> u8
    ensures { result ≡ unsigned_abs x % 256 }
{
    let bytes: [u8; 3] = x.to_le_bytes();
    bytes[0]
}

pub fn swapped_twice(x: u24) -> u24
    ensures { result ≡ x }
{
    x.swap_bytes().swap_bytes()
}

// ---- a field with a sign

pub fn signed_field(word: u32) -> i12
    ensures { result ≡ wrap true 12 (field word 20 12) }
{
    i12::extract_u32(word, 20)
}

// ---- the place of the highest bit, and of the lowest

pub fn log2(x: u24) -> u5
    requires { pos 0 <ℤ x }
{
    u5::new(23 - x.leading_zeros() as u8)
}

pub fn has_a_lowest_bit(x: u12) -> u4
    requires { pos 0 <ℤ x }
{
    u4::new(x.trailing_zeros() as u8)
}

// ---- there and back

pub fn big_endian_and_back(x: u24) -> u24
    ensures { result ≡ x }
{
    u24::from_be_bytes(x.to_be_bytes())
}

pub fn little_endian_and_back(x: i48) -> i48
    ensures { result ≡ x }
{
    i48::from_le_bytes(x.to_le_bytes())
}

pub fn bytes_and_back(bytes: [u8; 3]) -> [u8; 3]
    ensures { result ≡ bytes }
{
    u24::from_be_bytes(bytes).to_be_bytes()
}

pub fn number_of_three_bytes(bytes: [u8; 3]) -> bool
    ensures { IsTrue result }
{
    u24::from_be_bytes(bytes)
        == (u24::from_(bytes[0]) << 16) + (u24::from_(bytes[1]) << 8) + u24::from_(bytes[2])
}

pub fn three_bytes_of_a_header(a: u8, b: u8, c: u8) -> u24
    ensures { result ≡ pos (65536 * a + 256 * b + c) }
{
    u24::from_be_bytes([a, b, c])
}

pub fn one_byte_too_few() -> bool
    ensures { IsTrue result }
{
    u12::from_borsh_bytes(&[1]).is_none()
}

pub fn not_canonical() -> bool
    ensures { IsTrue result }
{
    u12::from_borsh_bytes(&[0, 16]).is_none()
}

pub fn stored_at_key(
    map: &mut HashMap<u7, u12>,
    key: u7,
    value: u12,
) -> Result<(), AllocFailed<(u7, u12)>>
    ensures { OnOk result (get int_eq map.new key ≡ Some value) }
{
    map.insert(key, value)?;
    Ok(())
}

pub fn network_order_and_back(x: u80) -> bool
    ensures { IsTrue result }
{
    u80::from_be(x.to_be()) == x
}

#[tactic(auto, using(arbitrary_laws::proofs::bytes::Rulesets::byte_orders))]
pub fn bytes_of_the_other_sign(x: i24) -> bool
    ensures { IsTrue result }
{
    x.to_be_bytes() == x.to_unsigned().to_be_bytes()
}

#[tactic(auto, using(arbitrary_laws::proofs::bytes::Rulesets::byte_orders))]
pub fn big_end_of_swapped(x: u24) -> bool
    ensures { IsTrue result }
{
    x.swap_bytes().to_be_bytes() == x.to_le_bytes()
}

pub fn lowest_byte_with_a_sign(x: i24) -> bool
    ensures { IsTrue result }
{
    let bytes: [u8; 3] = x.to_le_bytes();
    bytes[0] == x.as_u8()
}

pub fn sample_from_bytes(a: u8, b: u8, c: u8) -> bool
    ensures { IsTrue result }
{
    i24::from_be_bytes([a, b, c]).as_i32() == i32::from_be_bytes([a, b, c, 0]) >> 8
}

pub fn loud_sample(a: u8, b: u8, c: u8) -> i24
    requires { a < 128 }
    ensures { result ≡ pos (65536 * a + 256 * b + c) }
{
    i24::from_be_bytes([a, b, c])
}

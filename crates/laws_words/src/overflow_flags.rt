//! Carry, borrow and overflow, computed from one bit of the operands and the result.
#![tactic(auto, using(arbitrary_laws::proofs::Sets::overflow_flags))]

ghost use Rattle.std.specs.Prelude.{◌≡◌, ◌≢◌, ◌↔◌, ◌/◌, ◌%◌, ◌+◌, ◌-◌, ◌<◌, ◌≤◌, int_div, pos, unsigned_abs, IsTrue};

use arbitrary_int::prelude::*;

/// 1 where the sum passes the range of a signed byte.
pub fn overflow_bit(a: u8, m: u8) -> u8
    ensures { result ≡ 1 ↔ ((a / 128 ≡ m / 128) × ((a + m) % 256 / 128 ≢ a / 128)) }
{
    let r = a.wrapping_add(m);
    ((a ^ r) & (m ^ r)) >> 7
}

/// Whether the sum passes the range of a signed word of 32 bits.
pub fn sum_overflows(a: u32, m: u32) -> bool
    ensures { IsTrue result ↔ ((a / 2147483648 ≡ m / 2147483648)
        × ((a + m) % 4294967296 / 2147483648 ≢ a / 2147483648)) }
{
    let r = a.wrapping_add(m);
    (a ^ r) & (m ^ r) & 0x8000_0000 != 0
}

/// Whether the difference passes the range of a signed word of 16 bits.
pub fn difference_overflows(a: u16, m: u16) -> bool
    ensures { IsTrue result ↔ ((a / 32768 ≢ m / 32768)
        × ((a + 65536 - m) % 65536 / 32768 ≢ a / 32768)) }
{
    let r = a.wrapping_sub(m);
    (a ^ m) & (a ^ r) & 0x8000 != 0
}

/// Whether the sum of two bytes carries.
pub fn carries(a: u8, b: u8) -> bool
    ensures { IsTrue result ↔ (256 ≤ (a + b)) }
{
    let r = a.wrapping_add(b);
    ((a & b) | ((a | b) & !r)) & 0x80 != 0
}

/// The carry of a sum.
pub fn carry_bit(a: u32, b: u32) -> u32
    ensures { result ≡ (a + b) / 4294967296 }
{
    let r = a.wrapping_add(b);
    ((a & b) | ((a | b) & !r)) >> 31
}

/// 1 where the difference borrows.
pub fn borrow_bit(a: u16, b: u16) -> u16
    ensures { result ≡ 1 ↔ (a < b) }
{
    let r = a.wrapping_sub(b);
    ((!a & b) | (!(a ^ b) & r)) >> 15
}

/// Whether the low 12 bits of a sum carry.
pub fn half_carries(a: u16, b: u16) -> bool
    ensures { IsTrue result ↔ (4096 ≤ (a % 4096 + b % 4096)) }
{
    let r = a.wrapping_add(b);
    (a ^ b ^ r) & 0x1000 != 0
}

/// Whether the low half of a difference borrows.
pub fn half_borrows(a: u8, b: u8) -> bool
    ensures { IsTrue result ↔ (a % 16 < b % 16) }
{
    let r = a.wrapping_sub(b);
    (a ^ b ^ r) & 0x10 != 0
}

/// Whether the highest bits differ.
pub fn signs_differ(a: u12, b: u12) -> bool
    ensures { IsTrue result ↔ (int_div a (pos 2048) ≢ int_div b (pos 2048)) }
{
    (a ^ b) & u12::new(0x800) != u12::new(0)
}

/// Whether the sum passes the range of a signed number with the same bits.
pub fn sum_of_twelve_overflows(a: u12, b: u12) -> bool
    ensures { let x = unsigned_abs a in
        let y = unsigned_abs b in
        IsTrue result ↔ ((x / 2048 ≡ y / 2048) × ((x + y) / 2048 % 2 ≢ x / 2048)) }
{
    let r = a.wrapping_add(b);
    (a ^ r) & (b ^ r) & u12::new(0x800) != u12::new(0)
}

/// Whether the low 4 bits of a difference borrow.
pub fn low_of_twelve_borrows(a: u12, b: u12) -> bool
    ensures { IsTrue result ↔ (unsigned_abs a % 16 < unsigned_abs b % 16) }
{
    (a ^ b ^ a.wrapping_sub(b)) & u12::new(0x10) != u12::new(0)
}

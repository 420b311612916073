//! A record after a put, as numbers: the bits below the field, in it and above it, and fields of other widths
//! that share its bits.

ghost use Rattle.std.specs.Prelude.{◌≡◌, ◌<◌, ◌+◌, ◌*◌, ◌/◌, ◌%◌, pos, unsigned_abs, IsTrue};

use arbitrary_int::prelude::*;
use bit_fields::Record;

pub fn low_part(record: &mut Record, x: u12) -> u4
    ensures { result ≡ pos (unsigned_abs x % 16) }
{
    record.put(20, x);
    record.get::<u4>(20)
}

pub fn high_part(mut record: Record, x: u12) -> bool
    ensures { IsTrue result }
{
    record.put(20, x);
    record.get::<u4>(28) == (x >> 8).as_::<u4>()
}

pub fn sign_bit(mut record: Record, x: i12) -> bool
    ensures { IsTrue result }
{
    record.put(20, x);
    (record.get::<u1>(31) == u1::new(1)) == x.is_negative()
}

pub fn signed_as_unsigned(mut record: Record, x: i12) -> bool
    ensures { IsTrue result }
{
    record.put(20, x);
    record.get::<u12>(20) == x.to_unsigned()
}

pub fn half_cleared(mut record: Record, x: u8) -> bool
    ensures { IsTrue result }
{
    record.put(0, x);
    record.put(4, u4::new(0));
    record.get::<u8>(0) == x & 15
}

pub fn into_nothing(x: u12, y: u5) -> u128
    ensures number { pos result ≡ pos (unsigned_abs x + 4096 * unsigned_abs y) }
    ensures short { result < 131072 }
{
    let mut record = Record { bits: 0 };
    record.put(0, x);
    record.put(12, y);
    record.bits
}

pub fn stays_a_word(bits: u128, x: u12) -> u128
    requires { bits < 4294967296 }
    ensures { result < 4294967296 }
{
    let mut record = Record { bits };
    record.put(20, x);
    record.bits
}

pub fn around_the_field(bits: u128, x: i12) -> u128
    ensures below { result % 1048576 ≡ bits % 1048576 }
    ensures above { result / 4294967296 ≡ bits / 4294967296 }
{
    let mut record = Record { bits };
    record.put(20, x);
    record.bits
}

pub fn put_back(bits: u128, x: u5) -> bool
    ensures { IsTrue result }
{
    let mut record = Record { bits };
    let before = record.get::<u5>(3);
    record.put(3, x);
    record.put(3, before);
    record.bits == bits
}

pub fn in_either_order(bits: u128, x: u5, y: u7) -> bool
    ensures { IsTrue result }
{
    let mut first = Record { bits };
    first.put(0, x);
    first.put(8, y);
    let mut second = Record { bits };
    second.put(8, y);
    second.put(0, x);
    first.bits == second.bits
}

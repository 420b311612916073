//! The test of one width. Each storage has one function with the width as its parameter, so the check looks up
//! the traits of a type once for each storage. This saves most of its time.

use arbitrary_base::storage::{BuiltinInteger, SignedStorage, UnsignedOf, UnsignedStorage};
use arbitrary_base::truncation::to_u128_bits;
use arbitrary_core::signed::Int;
use arbitrary_core::unsigned::UInt;
use arbitrary_widths::HasWidth;
use num_traits::{Bounded, SaturatingAdd, SaturatingSub};
use std::process::Abort;

/// The 128 bits of a value. `Integer` has them too, but its check takes four times as long.
trait Bits: Copy {
    fn bits(self) -> u128;
}

impl<T: UnsignedStorage, const BITS: usize> Bits for UInt<T, BITS> {
    fn bits(self) -> u128 {
        to_u128_bits(self.value())
    }
}

impl<T: BuiltinInteger + SignedStorage, const BITS: usize> Bits for Int<T, BITS>
where
    T::Unsigned: UnsignedOf<T>,
{
    fn bits(self) -> u128 {
        to_u128_bits(self.value())
    }
}

/// Fails where the least number, the greatest, the default, the saturated sum of the greatest with itself, or the saturated difference
/// of the least and the greatest, has other bits.
fn ends<V: Bits + Bounded + SaturatingAdd + SaturatingSub + Default>(
    rt: &impl Abort,
    least: u128,
    greatest: u128,
) {
    let low = <V as Bounded>::min_value();
    let high = <V as Bounded>::max_value();
    let sum = SaturatingAdd::saturating_add(&high, &high);
    let difference = SaturatingSub::saturating_sub(&low, &high);
    assert_eq!(rt; (low.bits(), high.bits()), (least, greatest));
    assert_eq!(rt; (difference.bits(), sum.bits()), (least, greatest));
    assert_eq!(rt; V::default().bits(), 0);
}

/// `UInt` over `u8`.
pub fn ends_u8<const BITS: usize>(rt: &impl Abort, least: u128, greatest: u128)
where
    u8: HasWidth<BITS>,
{
    ends::<UInt<u8, BITS>>(rt, least, greatest);
}

/// `UInt` over `u16`.
pub fn ends_u16<const BITS: usize>(rt: &impl Abort, least: u128, greatest: u128)
where
    u16: HasWidth<BITS>,
{
    ends::<UInt<u16, BITS>>(rt, least, greatest);
}

/// `UInt` over `u32`.
pub fn ends_u32<const BITS: usize>(rt: &impl Abort, least: u128, greatest: u128)
where
    u32: HasWidth<BITS>,
{
    ends::<UInt<u32, BITS>>(rt, least, greatest);
}

/// `UInt` over `u64`.
pub fn ends_u64<const BITS: usize>(rt: &impl Abort, least: u128, greatest: u128)
where
    u64: HasWidth<BITS>,
{
    ends::<UInt<u64, BITS>>(rt, least, greatest);
}

/// `UInt` over `u128`.
pub fn ends_u128<const BITS: usize>(rt: &impl Abort, least: u128, greatest: u128)
where
    u128: HasWidth<BITS>,
{
    ends::<UInt<u128, BITS>>(rt, least, greatest);
}

/// `Int` over `i8`.
pub fn ends_i8<const BITS: usize>(rt: &impl Abort, least: i128, greatest: i128)
where
    i8: HasWidth<BITS>,
{
    ends::<Int<i8, BITS>>(rt, least.cast_unsigned(), greatest.cast_unsigned());
}

/// `Int` over `i16`.
pub fn ends_i16<const BITS: usize>(rt: &impl Abort, least: i128, greatest: i128)
where
    i16: HasWidth<BITS>,
{
    ends::<Int<i16, BITS>>(rt, least.cast_unsigned(), greatest.cast_unsigned());
}

/// `Int` over `i32`.
pub fn ends_i32<const BITS: usize>(rt: &impl Abort, least: i128, greatest: i128)
where
    i32: HasWidth<BITS>,
{
    ends::<Int<i32, BITS>>(rt, least.cast_unsigned(), greatest.cast_unsigned());
}

/// `Int` over `i64`.
pub fn ends_i64<const BITS: usize>(rt: &impl Abort, least: i128, greatest: i128)
where
    i64: HasWidth<BITS>,
{
    ends::<Int<i64, BITS>>(rt, least.cast_unsigned(), greatest.cast_unsigned());
}

/// `Int` over `i128`.
pub fn ends_i128<const BITS: usize>(rt: &impl Abort, least: i128, greatest: i128)
where
    i128: HasWidth<BITS>,
{
    ends::<Int<i128, BITS>>(rt, least.cast_unsigned(), greatest.cast_unsigned());
}

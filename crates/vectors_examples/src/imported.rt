//! The types' own calls without an import of a trait, and one call of `pages::imports` for each bound. The proof of a
//! generic call loads all that its bound requires, so the other calls are only there.

use crate::same::same;
use arbitrary_int::{TryNewError, UInt, i4, i5, i7, u4, u5, u7};
use pages::imports::{by_fixed_width, by_integer, by_storage, by_type};

#[test]
fn widths(rt: HostRuntime) {
    same(&rt, (by_type::WIDTH, u7::BITS, i7::BITS), (7, 7, 7));
    same(&rt, by_type::bit_list().len(), 7);
    same(
        &rt,
        (by_type::is_width(7), by_type::is_width(8)),
        (true, false),
    );
    same(
        &rt,
        (UInt::<u8, 8>::BITS, UInt::<u128, 128>::BITS),
        (8, 128),
    );
    same(&rt, (u7::mask(), u7::is_valid_width()), (127, true));
}

#[test]
fn calls_of_the_types(rt: HostRuntime) {
    same(&rt, u7::try_new(128), Err(TryNewError));
    same(&rt, u4::from_u64(9).widen::<5>(), u5::new(9));
    same(&rt, i7::from_bits(0x7F), i7::new(-1));
    same(&rt, i7::try_from_bits(0x80), Err(TryNewError));
    same(&rt, i7::new(-64).overflowing_neg(), (i7::new(-64), true));
}

#[test]
fn one_call_by_each_bound(rt: HostRuntime) {
    same(
        &rt,
        by_integer::truncated::<i4, u5>(i4::new(-1)),
        u5::new(31),
    );
    same(
        &rt,
        by_fixed_width::field::<i5>(0b0011_1110, 1),
        i5::new(-1),
    );
    same(&rt, by_storage::number::<i8>(255), -1);
}

//! Test vectors of text: decimal text of every kind of type, and the bases 2, 8 and 16.

use crate::same::same;
use arbitrary_int::prelude::*;
use std::alloc::{AllocError, Global};
use std::fmt;
use std::fmt::{Binary, Debug, Display, HasDigits, LowerHex, Octal, UpperHex};
use std::process::Abort;
use std::test::Fail;

/// Fails if the least and the greatest number are written otherwise, by `{}` and by `{:?}`. With a bound `Integer` in place of these,
/// the check of a line takes twice as long.
fn has_ends<V: num_traits::Bounded + Display + Debug + Drop>(
    rt: &impl Abort,
    alloc: Global,
    text: &str,
) -> Result<(), AllocError> {
    let least = <V as num_traits::Bounded>::min_value();
    let greatest = <V as num_traits::Bounded>::max_value();
    let written = format!(in alloc; "{least} {greatest} {least:?} {greatest:?}")?;
    same(rt, written.as_str(), text);
    Ok(())
}

#[test]
fn decimals_of_8_bits(rt: HostRuntime) -> Result<(), Fail> {
    let alloc = rt.alloc();
    has_ends::<UInt<u8, 8>>(&rt, alloc, "0 255 0 255")?;
    has_ends::<Int<i8, 8>>(&rt, alloc, "-128 127 -128 127")?;
    Ok(())
}

#[test]
fn decimals_of_16_bits(rt: HostRuntime) -> Result<(), Fail> {
    let alloc = rt.alloc();
    has_ends::<UInt<u16, 16>>(&rt, alloc, "0 65535 0 65535")?;
    has_ends::<Int<i16, 16>>(&rt, alloc, "-32768 32767 -32768 32767")?;
    Ok(())
}

#[test]
fn decimals_of_32_bits(rt: HostRuntime) -> Result<(), Fail> {
    let alloc = rt.alloc();
    has_ends::<UInt<u32, 32>>(&rt, alloc, "0 4294967295 0 4294967295")?;
    has_ends::<Int<i32, 32>>(&rt, alloc, "-2147483648 2147483647 -2147483648 2147483647")?;
    Ok(())
}

#[test]
fn decimals_of_64_bits(rt: HostRuntime) -> Result<(), Fail> {
    let alloc = rt.alloc();
    has_ends::<UInt<u64, 64>>(&rt, alloc, "0 18446744073709551615 0 18446744073709551615")?;
    has_ends::<Int<i64, 64>>(
        &rt,
        alloc,
        "-9223372036854775808 9223372036854775807 -9223372036854775808 9223372036854775807",
    )?;
    Ok(())
}

#[test]
fn decimals_of_128_bits(rt: HostRuntime) -> Result<(), Fail> {
    let alloc = rt.alloc();
    has_ends::<UInt<u128, 128>>(
        &rt,
        alloc,
        "0 340282366920938463463374607431768211455 0 340282366920938463463374607431768211455",
    )?;
    has_ends::<Int<i128, 128>>(
        &rt,
        alloc,
        "-170141183460469231731687303715884105728 170141183460469231731687303715884105727 -170141183460469231731687303715884105728 170141183460469231731687303715884105727",
    )?;
    Ok(())
}

#[test]
fn decimals_of_one_bit(rt: HostRuntime) -> Result<(), Fail> {
    let alloc = rt.alloc();
    has_ends::<u1>(&rt, alloc, "0 1 0 1")?;
    has_ends::<i1>(&rt, alloc, "-1 0 -1 0")?;
    Ok(())
}

#[test]
fn decimals_of_7_bits(rt: HostRuntime) -> Result<(), Fail> {
    let alloc = rt.alloc();
    has_ends::<u7>(&rt, alloc, "0 127 0 127")?;
    has_ends::<i7>(&rt, alloc, "-64 63 -64 63")?;
    Ok(())
}

#[test]
fn decimals_of_14_bits(rt: HostRuntime) -> Result<(), Fail> {
    let alloc = rt.alloc();
    has_ends::<u14>(&rt, alloc, "0 16383 0 16383")?;
    has_ends::<i14>(&rt, alloc, "-8192 8191 -8192 8191")?;
    Ok(())
}

#[test]
fn decimals_of_18_bits(rt: HostRuntime) -> Result<(), Fail> {
    let alloc = rt.alloc();
    has_ends::<u18>(&rt, alloc, "0 262143 0 262143")?;
    has_ends::<i18>(&rt, alloc, "-131072 131071 -131072 131071")?;
    Ok(())
}

#[test]
fn decimals_of_53_bits(rt: HostRuntime) -> Result<(), Fail> {
    let alloc = rt.alloc();
    has_ends::<u53>(&rt, alloc, "0 9007199254740991 0 9007199254740991")?;
    has_ends::<i53>(
        &rt,
        alloc,
        "-4503599627370496 4503599627370495 -4503599627370496 4503599627370495",
    )?;
    Ok(())
}

#[test]
fn decimals_of_127_bits(rt: HostRuntime) -> Result<(), Fail> {
    let alloc = rt.alloc();
    has_ends::<u127>(
        &rt,
        alloc,
        "0 170141183460469231731687303715884105727 0 170141183460469231731687303715884105727",
    )?;
    has_ends::<i127>(
        &rt,
        alloc,
        "-85070591730234615865843651857942052864 85070591730234615865843651857942052863 -85070591730234615865843651857942052864 85070591730234615865843651857942052863",
    )?;
    Ok(())
}

#[test]
fn decimals_in_a_wider_storage(rt: HostRuntime) -> Result<(), Fail> {
    let alloc = rt.alloc();
    has_ends::<UInt<u128, 5>>(&rt, alloc, "0 31 0 31")?;
    has_ends::<Int<i32, 4>>(&rt, alloc, "-8 7 -8 7")?;
    Ok(())
}

/// A value by the traits of the four bases, which a format string does not call.
#[derive(Drop)]
struct Based<V> {
    value: V,
    base: u32,
}

impl<V: LowerHex + UpperHex + Octal + Binary> Display for Based<V> {
    fn fmt<W: fmt::Write>(&self, f: &mut fmt::Formatter<W>) -> fmt::Result {
        match self.base {
            2 => Binary::fmt(&self.value, f),
            8 => Octal::fmt(&self.value, f),
            10 => UpperHex::fmt(&self.value, f),
            _ => LowerHex::fmt(&self.value, f),
        }
    }
}

/// How a value is written in the four bases, by format strings and by the traits.
fn has_bases<V: Copy + Drop + LowerHex + UpperHex + Octal + Binary + HasDigits>(
    rt: &impl Abort,
    alloc: Global,
    value: V,
    text: &str,
) -> Result<(), AllocError> {
    let by_strings = format!(in alloc; "{value:x} {value:X} {value:o} {value:b}")?;
    let lower = Based { value, base: 16 };
    let upper = Based { value, base: 10 };
    let octal = Based { value, base: 8 };
    let binary = Based { value, base: 2 };
    let by_traits = format!(in alloc; "{lower} {upper} {octal} {binary}")?;
    same(rt, by_strings.as_str(), text);
    same(rt, by_traits.as_str(), text);
    Ok(())
}

#[test]
fn small_numbers_from_zero_up_in_other_bases(rt: HostRuntime) -> Result<(), Fail> {
    let alloc = rt.alloc();
    has_bases(&rt, alloc, u5::new(10), "a A 12 1010")?;
    has_bases(&rt, alloc, u7::new(0), "0 0 0 0")?;
    has_bases(&rt, alloc, UInt::<u8, 8>::max_value(), "ff FF 377 11111111")?;
    has_bases(
        &rt,
        alloc,
        UInt::<u16, 16>::max_value(),
        "ffff FFFF 177777 1111111111111111",
    )?;
    Ok(())
}

#[test]
fn greater_numbers_from_zero_up_in_other_bases(rt: HostRuntime) -> Result<(), Fail> {
    let alloc = rt.alloc();
    has_bases(
        &rt,
        alloc,
        u31::new(0x1234_5678),
        "12345678 12345678 2215053170 10010001101000101011001111000",
    )?;
    has_bases(
        &rt,
        alloc,
        UInt::<u64, 64>::max_value(),
        "ffffffffffffffff FFFFFFFFFFFFFFFF 1777777777777777777777 1111111111111111111111111111111111111111111111111111111111111111",
    )?;
    has_bases(&rt, alloc, i14::new(8191), "1fff 1FFF 17777 1111111111111")?;
    has_bases(&rt, alloc, 171u8, "ab AB 253 10101011")?;
    Ok(())
}

#[test]
fn small_negative_numbers_in_other_bases(rt: HostRuntime) -> Result<(), Fail> {
    let alloc = rt.alloc();
    has_bases(&rt, alloc, i4::new(-1), "ff FF 377 11111111")?;
    has_bases(
        &rt,
        alloc,
        Int::<i32, 4>::new(-1),
        "ffffffff FFFFFFFF 37777777777 11111111111111111111111111111111",
    )?;
    has_bases(&rt, alloc, Int::<i8, 8>::min_value(), "80 80 200 10000000")?;
    has_bases(
        &rt,
        alloc,
        i14::new(-3),
        "fffd FFFD 177775 1111111111111101",
    )?;
    Ok(())
}

#[test]
fn wider_negative_numbers_in_other_bases(rt: HostRuntime) -> Result<(), Fail> {
    let alloc = rt.alloc();
    has_bases(
        &rt,
        alloc,
        Int::<i64, 64>::new(-2),
        "fffffffffffffffe FFFFFFFFFFFFFFFE 1777777777777777777776 1111111111111111111111111111111111111111111111111111111111111110",
    )?;
    has_bases(
        &rt,
        alloc,
        i33::min_value(),
        "ffffffff00000000 FFFFFFFF00000000 1777777777740000000000 1111111111111111111111111111111100000000000000000000000000000000",
    )?;
    has_bases(&rt, alloc, -5i16, "fffb FFFB 177773 1111111111111011")?;
    Ok(())
}

#[test]
fn wide_storages_in_other_bases(rt: HostRuntime) -> Result<(), Fail> {
    let alloc = rt.alloc();
    has_bases(&rt, alloc, u65::new(60), "3c 3C 74 111100")?;
    has_bases(
        &rt,
        alloc,
        u65::new(0x1_0000_0000_0000_0000),
        "10000000000000000 10000000000000000 2000000000000000000000 10000000000000000000000000000000000000000000000000000000000000000",
    )?;
    has_bases(
        &rt,
        alloc,
        UInt::<u128, 128>::new(0x0123_4567_89ab_cdef_0fed_cba9_8765_4321),
        "123456789abcdef0fedcba987654321 123456789ABCDEF0FEDCBA987654321 11064254742325715736077556272460731241441 1001000110100010101100111100010011010101111001101111011110000111111101101110010111010100110000111011001010100001100100001",
    )?;
    has_bases(
        &rt,
        alloc,
        UInt::<u128, 128>::max_value(),
        "ffffffffffffffffffffffffffffffff FFFFFFFFFFFFFFFFFFFFFFFFFFFFFFFF 3777777777777777777777777777777777777777777 11111111111111111111111111111111111111111111111111111111111111111111111111111111111111111111111111111111111111111111111111111111",
    )?;
    has_bases(
        &rt,
        alloc,
        i100::new(-5),
        "fffffffffffffffffffffffffffffffb FFFFFFFFFFFFFFFFFFFFFFFFFFFFFFFB 3777777777777777777777777777777777777777773 11111111111111111111111111111111111111111111111111111111111111111111111111111111111111111111111111111111111111111111111111111011",
    )?;
    has_bases(
        &rt,
        alloc,
        Int::<i128, 128>::min_value(),
        "80000000000000000000000000000000 80000000000000000000000000000000 2000000000000000000000000000000000000000000 10000000000000000000000000000000000000000000000000000000000000000000000000000000000000000000000000000000000000000000000000000000",
    )?;
    Ok(())
}

#[test]
fn alternate_and_padded_bases(rt: HostRuntime) -> Result<(), Fail> {
    let alloc = rt.alloc();
    let ten = u5::new(10);
    same(
        &rt,
        format!(in alloc; "{ten:#x} {ten:#X} {ten:#o} {ten:#b}")?.as_str(),
        "0xa 0xA 0o12 0b1010",
    );
    same(
        &rt,
        format!(in alloc; "{ten:4x} {ten:<4x} {ten:04x} {ten:#06x}")?.as_str(),
        "   a a    000a 0x000a",
    );
    Ok(())
}

#[test]
fn padding_and_signs(rt: HostRuntime) -> Result<(), Fail> {
    let alloc = rt.alloc();
    let sixty = u65::new(60);
    same(
        &rt,
        format!(in alloc; "{sixty} {sixty:?} {sixty:08b} {sixty:5} {sixty:+}")?.as_str(),
        "60 60 00111100    60 +60",
    );
    let less = i7::new(-3);
    same(
        &rt,
        format!(in alloc; "{less:05} {less:#?} {less:#x} {less:>4}")?.as_str(),
        "-0003 -3 0xfd   -3",
    );
    Ok(())
}

#[test]
fn an_alternate_text_of_full_width(rt: HostRuntime) -> Result<(), Fail> {
    let alloc = rt.alloc();
    let least = Int::<i128, 128>::new(-1);
    same(
        &rt,
        format!(in alloc; "{least:#x}")?.as_str(),
        "0xffffffffffffffffffffffffffffffff",
    );
    Ok(())
}

#[test]
fn refusal(rt: HostRuntime) -> Result<(), Fail> {
    let alloc = rt.alloc();
    let text = "Value too large to fit within this integer type";
    same(&rt, format!(in alloc; "{}", TryNewError)?.as_str(), text);
    same(
        &rt,
        format!(in alloc; "{:?}", TryNewError)?.as_str(),
        "TryNewError",
    );
    Ok(())
}

//! Widths at both ends of each storage, signed and unsigned, and narrow widths in wide storages. Each storage has one
//! function with the width as its parameter, so the check looks up the traits of a type once for each storage.

ghost use Rattle.std.specs.Prelude.{◌≤◌};

use crate::{arithmetic, bits, steps};
use arbitrary_int::prelude::*;

/// The first call that is wrong on any operand of this type. Steps run on two registers.
fn wrong<V: FixedWidth>(sample: V, registers: &mut [V]) -> Option<&'static str> {
    let of_arithmetic = arithmetic::wrong(sample);
    if of_arithmetic.is_some() {
        return of_arithmetic;
    }
    let of_steps = steps::wrong(sample, registers);
    if of_steps.is_some() {
        return of_steps;
    }
    bits::wrong(sample)
}

fn over_u8<const BITS: usize>() -> Option<&'static str>
    requires low { 1 ≤ BITS }
    requires high { BITS ≤ 8 }
{
    let zero = UInt::<u8, BITS>::zero();
    wrong(zero, &mut [zero; 2])
}

fn over_u16<const BITS: usize>() -> Option<&'static str>
    requires low { 1 ≤ BITS }
    requires high { BITS ≤ 16 }
{
    let zero = UInt::<u16, BITS>::zero();
    wrong(zero, &mut [zero; 2])
}

fn over_u32<const BITS: usize>() -> Option<&'static str>
    requires low { 1 ≤ BITS }
    requires high { BITS ≤ 32 }
{
    let zero = UInt::<u32, BITS>::zero();
    wrong(zero, &mut [zero; 2])
}

fn over_u64<const BITS: usize>() -> Option<&'static str>
    requires low { 1 ≤ BITS }
    requires high { BITS ≤ 64 }
{
    let zero = UInt::<u64, BITS>::zero();
    wrong(zero, &mut [zero; 2])
}

fn over_u128<const BITS: usize>() -> Option<&'static str>
    requires low { 1 ≤ BITS }
    requires high { BITS ≤ 128 }
{
    let zero = UInt::<u128, BITS>::zero();
    wrong(zero, &mut [zero; 2])
}

fn over_i8<const BITS: usize>() -> Option<&'static str>
    requires low { 1 ≤ BITS }
    requires high { BITS ≤ 8 }
{
    let zero = Int::<i8, BITS>::zero();
    wrong(zero, &mut [zero; 2])
}

fn over_i16<const BITS: usize>() -> Option<&'static str>
    requires low { 1 ≤ BITS }
    requires high { BITS ≤ 16 }
{
    let zero = Int::<i16, BITS>::zero();
    wrong(zero, &mut [zero; 2])
}

fn over_i32<const BITS: usize>() -> Option<&'static str>
    requires low { 1 ≤ BITS }
    requires high { BITS ≤ 32 }
{
    let zero = Int::<i32, BITS>::zero();
    wrong(zero, &mut [zero; 2])
}

fn over_i64<const BITS: usize>() -> Option<&'static str>
    requires low { 1 ≤ BITS }
    requires high { BITS ≤ 64 }
{
    let zero = Int::<i64, BITS>::zero();
    wrong(zero, &mut [zero; 2])
}

fn over_i128<const BITS: usize>() -> Option<&'static str>
    requires low { 1 ≤ BITS }
    requires high { BITS ≤ 128 }
{
    let zero = Int::<i128, BITS>::zero();
    wrong(zero, &mut [zero; 2])
}

/// What is wrong over a storage at each of the widths.
macro_rules! wrong_at {
    ($over:ident: $($bits:literal)*) => {
        [$($over::<$bits>()),*]
    };
}

#[test]
fn over_8_bits(rt: HostRuntime) {
    assert_eq!(rt; wrong_at!(over_u8: 1 2 3 4 5 6 7 8), [None; 8]);
    assert_eq!(rt; wrong_at!(over_i8: 1 2 3 4 5 6 7 8), [None; 8]);
}

#[test]
fn over_16_bits(rt: HostRuntime) {
    assert_eq!(rt; wrong_at!(over_u16: 1 9 14 15 16), [None; 5]);
    assert_eq!(rt; wrong_at!(over_i16: 1 9 14 15 16), [None; 5]);
}

#[test]
fn over_32_bits(rt: HostRuntime) {
    assert_eq!(rt; wrong_at!(over_u32: 5 17 31 32), [None; 4]);
    assert_eq!(rt; wrong_at!(over_i32: 5 17 31 32), [None; 4]);
}

#[test]
fn over_64_bits(rt: HostRuntime) {
    assert_eq!(rt; wrong_at!(over_u64: 7 33 63 64), [None; 4]);
    assert_eq!(rt; wrong_at!(over_i64: 7 33 63 64), [None; 4]);
}

#[test]
fn over_128_bits(rt: HostRuntime) {
    assert_eq!(rt; wrong_at!(over_u128: 1 65 120 127 128), [None; 5]);
    assert_eq!(rt; wrong_at!(over_i128: 1 65 120 127 128), [None; 5]);
}

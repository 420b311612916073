//! The table "In Rust you wrote" of docs/DIFFERENCES.md.

use crate::same::same;
use arbitrary_int::prelude::*;
use pages::constants::{Device, LIMIT, Limits, TOP, greatest, limit};

#[test]
fn lines_from_1(rt: HostRuntime) {
    let n = u4::new(9);
    same(&rt, <u8 as Constants>::ZERO, 0);
    same(&rt, u64::MAX, 18_446_744_073_709_551_615);
    same(&rt, <i8 as Integer>::min_value(), -128);
    same(&rt, u4::new(LIMIT), u4::new(3));
    same(&rt, limit(), u4::new(3));
    same(&rt, Device::LIMIT, u4::new(3));
    same(&rt, u4::new(TOP), u4::MAX);
    same(
        &rt,
        match n {
            m if m == u4::MAX => 1,
            _ => 0
        },
        0,
    );
}

#[test]
fn lines_from_9(rt: HostRuntime) {
    let n = u4::new(9);
    let a = u12::new(1000);
    let byte = 200u8;
    same(&rt, <u4 as Numbered>::BITS, 4);
    same(&rt, <u4 as Constants>::MAX, u4::new(15));
    same(&rt, greatest::<u4>(), u4::new(15));
    same(&rt, n.widen::<5>(), u5::new(9));
    same(
        &rt,
        UInt::<u16, 6>::from_(u5::new(3)),
        UInt::<u16, 6>::new(3),
    );
    same(&rt, usize::from(a.value()), 1000);
    same(&rt, u4::try_new(byte), Err(TryNewError));
    same(&rt, u4::masked_new(byte), u4::new(8));
}

#[test]
fn lines_from_17(rt: HostRuntime) {
    let n = u4::new(9);
    let a = u12::new(1000);
    let b = u12::new(7);
    let s = i12::new(-300);
    same(&rt, n == u4::new(9), true);
    same(&rt, n.wrapping_add(u4::new(1)), u4::new(10));
    same(&rt, a & b, u12::new(0));
    same(&rt, u12::new(a.value() % b.value()), u12::new(6));
    same(&rt, n << u4::new(3).value(), u4::new(8));
    same(&rt, range_inclusive(n, u4::MAX).next(), Some(n));
    same(
        &rt,
        "9".parse::<u8>().ok().and_then(|x| u4::try_new(x).ok()),
        Some(n),
    );
    same(
        &rt,
        {
            let wide = i13::from_(s);
            if s.is_negative() { -wide } else { wide }
        },
        i13::new(300),
    );
}

#[test]
fn lines_from_25(rt: HostRuntime) {
    let b = u12::new(7);
    let list = [u12::new(1000), u12::new(7)];
    same(&rt, b.saturating_pow(2), u12::new(49));
    same(&rt, list.iter().copied().sum::<u12>(), u12::new(1007));
}

//! Test vectors of values as keys, in order, and as booleans.

use crate::same::same;
use arbitrary_int::prelude::*;
use std::alloc::{AllocFailed, Global};
use std::collections::HashMap;
use std::hash::Hash;
use std::test::Fail;

#[test]
fn keys_of_a_hash_map(rt: HostRuntime) -> Result<(), Fail> {
    let mut map = HashMap::new(rt.alloc());
    map.insert(u5::new(11), u7::new(9))?;
    same(&rt, map.get(&u5::new(11)).copied(), Some(u7::new(9)));
    same(&rt, map.get(&u5::new(12)).copied(), None);
    let mut map = HashMap::new(rt.alloc());
    for number in -64i8..64 {
        map.insert(i7::masked_new(number), number)?;
    }
    for number in -64i8..64 {
        same(&rt, map.get(&i7::masked_new(number)).copied(), Some(number));
    }
    Ok(())
}

/// Whether a key is found again.
fn is_found<K: Hash + Copy + Drop>(alloc: Global, key: K) -> Result<bool, AllocFailed<(K, ())>> {
    let mut map = HashMap::new(alloc);
    map.insert(key, ())?;
    Ok(map.contains_key(&key))
}

#[test]
fn keys_of_8_bits(rt: HostRuntime) -> Result<(), Fail> {
    let alloc = rt.alloc();
    same(&rt, is_found(alloc, UInt::<u8, 8>::max_value())?, true);
    same(&rt, is_found(alloc, Int::<i8, 8>::min_value())?, true);
    Ok(())
}

#[test]
fn keys_of_14_bits(rt: HostRuntime) -> Result<(), Fail> {
    let alloc = rt.alloc();
    same(&rt, is_found(alloc, u14::max_value())?, true);
    same(&rt, is_found(alloc, i14::min_value())?, true);
    Ok(())
}

#[test]
fn keys_of_31_bits(rt: HostRuntime) -> Result<(), Fail> {
    let alloc = rt.alloc();
    same(&rt, is_found(alloc, u31::max_value())?, true);
    same(&rt, is_found(alloc, i31::min_value())?, true);
    Ok(())
}

#[test]
fn keys_of_53_bits(rt: HostRuntime) -> Result<(), Fail> {
    let alloc = rt.alloc();
    same(&rt, is_found(alloc, u53::max_value())?, true);
    same(&rt, is_found(alloc, i53::min_value())?, true);
    Ok(())
}

#[test]
fn keys_of_127_bits(rt: HostRuntime) -> Result<(), Fail> {
    let alloc = rt.alloc();
    same(&rt, is_found(alloc, u127::max_value())?, true);
    same(&rt, is_found(alloc, i127::min_value())?, true);
    Ok(())
}

#[test]
fn order_is_that_of_the_numbers(rt: HostRuntime) {
    same(&rt, u4::new(12) > u4::new(3), true);
    same(&rt, i4::new(-8) < i4::new(7), true);
}

#[test]
fn one_bit_and_truth(rt: HostRuntime) {
    same(&rt, u1::from(true), u1::new(1));
    same(&rt, u1::from(false), u1::new(0));
    same(&rt, bool::from(u1::new(1)), true);
    same(&rt, bool::from(u1::new(0)), false);
}

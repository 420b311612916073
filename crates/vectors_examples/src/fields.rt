//! Test vectors of fields in a record. Each expected result comes from outside the library.

use crate::same::same;
use arbitrary_int::prelude::*;
use bit_fields::{Record, disjoint};

#[test]
fn fields_are_put_and_read(rt: HostRuntime) {
    let mut record = Record { bits: 0 };
    record.put(3, u5::new(21));
    same(&rt, record.bits, 168);
    same(&rt, record.get::<u5>(3), u5::new(21));
    same(&rt, record.get::<i5>(3), i5::new(-11));
}

#[test]
fn a_negative_value_stays_in_its_field(rt: HostRuntime) {
    let mut record = Record { bits: 0 };
    record.put(123, i5::new(-1));
    same(&rt, record.get::<u5>(123), u5::new(31));
    same(&rt, record.get::<u120>(0), u120::new(0));
    let mut record = Record { bits: 0 };
    record.put(10, i5::new(-1));
    same(&rt, record.bits, 31744);
}

#[test]
fn the_other_bits_stay(rt: HostRuntime) {
    let mut record = Record { bits: u128::MAX };
    record.put(60, u9::new(300));
    same(&rt, record.get::<u9>(60), u9::new(300));
    same(&rt, record.get::<u60>(0), u60::max_value());
    same(&rt, record.get::<u59>(69), u59::max_value());
    record.put(0, UInt::<u128, 128>::new(7));
    same(&rt, record.bits, 7);
}

#[test]
fn fields_are_disjoint_where_no_bit_is_in_both(rt: HostRuntime) {
    same(&rt, disjoint(0, 4, 4, 5), true);
    same(&rt, disjoint(0, 5, 4, 5), false);
    same(&rt, disjoint(5, 0, 0, 128), true);
    same(&rt, disjoint(128, 0, 0, 128), true);
}

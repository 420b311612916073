//! Tests of the functions of the README.

use crate::same::same;
use arbitrary_int::prelude::*;
use pages::first::{checksum, inverted};

#[test]
fn checksum_wraps(rt: HostRuntime) {
    same(&rt, checksum(u12::new(4000), u12::new(200)), u12::new(104));
}

#[test]
fn minimum_is_inverted(rt: HostRuntime) {
    same(&rt, inverted(i14::new(-8192)), i15::new(8192));
}

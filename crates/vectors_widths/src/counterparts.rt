//! The associated types of a type: its storage, and the unsigned and the signed type of its width.
//!
//! Each line names a type twice, so it compiles only if both are the same.

use arbitrary_int::prelude::*;

#[test]
fn counterparts_of_the_primitives(_rt: HostRuntime) {
    let _: [<u8 as Integer>::UnsignedInteger; 2] = [0u8, <i8 as Integer>::UnsignedInteger::zero()];
    let _: [<u8 as Integer>::SignedInteger; 2] = [0i8, <i8 as Integer>::SignedInteger::zero()];
    let _: [<u16 as Integer>::UnsignedInteger; 2] = [
        0u16,
        <i16 as Integer>::UnsignedInteger::zero(),
    ];
    let _: [<u16 as Integer>::SignedInteger; 2] = [0i16, <i16 as Integer>::SignedInteger::zero()];
    let _: [<u32 as Integer>::UnsignedInteger; 2] = [
        0u32,
        <i32 as Integer>::UnsignedInteger::zero(),
    ];
    let _: [<u32 as Integer>::SignedInteger; 2] = [0i32, <i32 as Integer>::SignedInteger::zero()];
    let _: [<u64 as Integer>::UnsignedInteger; 2] = [
        0u64,
        <i64 as Integer>::UnsignedInteger::zero(),
    ];
    let _: [<u64 as Integer>::SignedInteger; 2] = [0i64, <i64 as Integer>::SignedInteger::zero()];
    let _: [<u128 as Integer>::UnsignedInteger; 2] = [
        0u128,
        <i128 as Integer>::UnsignedInteger::zero(),
    ];
    let _: [<u128 as Integer>::SignedInteger; 2] = [
        0i128,
        <i128 as Integer>::SignedInteger::zero(),
    ];
}

#[test]
fn counterparts_of_a_width_over_each_storage(_rt: HostRuntime) {
    let _: [<u7 as Integer>::UnsignedInteger; 2] = [
        u7::zero(),
        <i7 as Integer>::UnsignedInteger::zero(),
    ];
    let _: [<u7 as Integer>::SignedInteger; 2] = [
        i7::zero(),
        <i7 as Integer>::SignedInteger::zero(),
    ];
    let _: [<u14 as Integer>::UnsignedInteger; 2] = [
        u14::zero(),
        <i14 as Integer>::UnsignedInteger::zero(),
    ];
    let _: [<u14 as Integer>::SignedInteger; 2] = [
        i14::zero(),
        <i14 as Integer>::SignedInteger::zero(),
    ];
    let _: [<u20 as Integer>::UnsignedInteger; 2] = [
        u20::zero(),
        <i20 as Integer>::UnsignedInteger::zero(),
    ];
    let _: [<u20 as Integer>::SignedInteger; 2] = [
        i20::zero(),
        <i20 as Integer>::SignedInteger::zero(),
    ];
    let _: [<u40 as Integer>::UnsignedInteger; 2] = [
        u40::zero(),
        <i40 as Integer>::UnsignedInteger::zero(),
    ];
    let _: [<u40 as Integer>::SignedInteger; 2] = [
        i40::zero(),
        <i40 as Integer>::SignedInteger::zero(),
    ];
    let _: [<u120 as Integer>::UnsignedInteger; 2] = [
        u120::zero(),
        <i120 as Integer>::UnsignedInteger::zero(),
    ];
    let _: [<u120 as Integer>::SignedInteger; 2] = [
        i120::zero(),
        <i120 as Integer>::SignedInteger::zero(),
    ];
}

#[test]
fn the_storage_is_that_of_the_type(_rt: HostRuntime) {
    let _: <u8 as Integer>::UnderlyingType = 0u8;
    let _: <i128 as Integer>::UnderlyingType = 0i128;
    let _: <u7 as Integer>::UnderlyingType = 0u8;
    let _: <i14 as Integer>::UnderlyingType = 0i16;
    let _: <u20 as Integer>::UnderlyingType = 0u32;
    let _: <i40 as Integer>::UnderlyingType = 0i64;
    let _: <UInt<u128, 5> as Integer>::UnderlyingType = 0u128;
}

#[test]
fn counterparts_have_the_same_bits(rt: HostRuntime) {
    assert_eq!(rt; (200u8.to_unsigned(), (-56i8).to_unsigned()), (200, 200));
    assert_eq!(rt;
        (u8::from_unsigned(200), i8::from_unsigned(200)),
        (200, -56)
    );
    assert_eq!(rt;
        (u7::new(100).to_unsigned(), i7::new(-28).to_unsigned()),
        (u7::new(100), u7::new(100))
    );
    assert_eq!(rt;
        (
            u7::from_unsigned(u7::new(100)),
            i7::from_unsigned(u7::new(100))
        ),
        (u7::new(100), i7::new(-28))
    );
}

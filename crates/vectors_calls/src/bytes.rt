//! Test vectors of bytes, and of values in streams.

use crate::same::same;
use arbitrary_int::Watched;
use arbitrary_int::prelude::*;
use std::io::ErrorKind;
use std::test::Fail;

#[test]
fn bytes_in_both_orders(rt: HostRuntime) {
    same(&rt, i24::new(-5).to_be_bytes(), [0xFF, 0xFF, 0xFB]);
    same(&rt, i24::new(-5).swap_bytes(), i24::new(-262145));
    same(&rt, i24::new(-904106).to_le_bytes(), [0x56, 0x34, 0xF2]);
    same(
        &rt,
        u24::from_le_bytes([0x56, 0x34, 0x12]),
        u24::new(0x123456),
    );
    same(
        &rt,
        u24::from_be_bytes([0x12, 0x34, 0x56]),
        u24::new(0x123456),
    );
    same(&rt, u24::new(0x123456).swap_bytes(), u24::new(0x563412));
    same(
        &rt,
        u40::new(0x123456789A).to_le_bytes(),
        [0x9A, 0x78, 0x56, 0x34, 0x12],
    );
    same(
        &rt,
        i40::new(0x123456789A).swap_bytes(),
        i40::new(0x9A78563412 - (1 << 40)),
    );
}

#[test]
fn the_machine_is_little_endian(rt: HostRuntime) {
    let value = UInt::<u128, 24>::new(0x123456);
    let swapped = UInt::<u128, 24>::new(0x563412);
    same(&rt, value.to_ne_bytes(), [0x56, 0x34, 0x12]);
    same(
        &rt,
        UInt::<u128, 24>::from_ne_bytes([0x56, 0x34, 0x12]),
        value,
    );
    same(&rt, (value.to_le(), value.to_be()), (value, swapped));
    same(
        &rt,
        (
            UInt::<u128, 24>::from_le(value),
            UInt::<u128, 24>::from_be(value),
        ),
        (value, swapped),
    );
}

#[test]
fn each_width_of_whole_bytes(rt: HostRuntime) {
    same(&rt, u48::new(1).to_be_bytes(), [0, 0, 0, 0, 0, 1]);
    same(&rt, u56::new(1).swap_bytes(), u56::new(1 << 48));
    same(&rt, i72::new(-2).swap_bytes(), i72::new(-(1 << 64) - 1));
    same(&rt, u80::new(1).swap_bytes(), u80::new(1 << 72));
    same(&rt, u88::new(1).swap_bytes(), u88::new(1 << 80));
    same(&rt, u96::new(1).swap_bytes(), u96::new(1 << 88));
    same(&rt, u104::new(1).swap_bytes(), u104::new(1 << 96));
    same(&rt, u112::new(1).swap_bytes(), u112::new(1 << 104));
    same(&rt, u120::new(1).swap_bytes(), u120::new(1 << 112));
    same(
        &rt,
        Int::<i64, 24>::new(-5).to_be_bytes(),
        [0xFF, 0xFF, 0xFB],
    );
}

#[test]
fn bytes_of_a_stream_in_memory(rt: HostRuntime) {
    let mut out = [0xAA; 16];
    same(&rt, u9::new(300).to_borsh_bytes(&mut out), 2);
    let mut wanted = [0xAA; 16];
    wanted[0] = 0x2C;
    wanted[1] = 0x01;
    same(&rt, out, wanted);
    same(&rt, i9::new(-1).to_borsh_bytes(&mut out), 2);
    same(&rt, [out[0], out[1]], [0xFF, 0x01]);
    same(&rt, Int::<i128, 128>::new(-1).to_borsh_bytes(&mut out), 16);
    same(&rt, out, [0xFF; 16]);
    same(&rt, u9::from_borsh_bytes(&[0x2C, 0x01]), Some(u9::new(300)));
    same(&rt, u9::from_borsh_bytes(&[0x2C, 0x01, 0x07]), None);
    same(&rt, u1::from_borsh_bytes(&[2]), None);
    same(&rt, u1::from_borsh_bytes(&[]), None);
}

#[test]
fn values_go_through_a_stream(rt: HostRuntime) -> Result<(), Fail> {
    let mut reader = Watched::new([0x2C, 0x01, 0x07].as_slice());
    same(&rt, u9::deserialize_reader(&mut reader)?, u9::new(300));
    same(&rt, reader.into_inner(), [0x07].as_slice());
    let mut wrong = Watched::new([0x2C, 0x03].as_slice());
    let read = u9::deserialize_reader(&mut wrong);
    same(
        &rt,
        read.err().map(|error| error.kind()),
        Some(ErrorKind::InvalidData),
    );
    let mut short = Watched::new([0x2C].as_slice());
    let read = u9::deserialize_reader(&mut short);
    same(
        &rt,
        read.err().map(|error| error.kind()),
        Some(ErrorKind::UnexpectedEof),
    );
    same(&rt, short.failed(), false);
    let mut writer = Watched::new(Vec::new(rt.alloc()));
    u9::new(300).serialize(&mut writer)?;
    i9::new(-1).serialize(&mut writer)?;
    same(
        &rt,
        writer.into_inner().as_slice(),
        [0x2C, 0x01, 0xFF, 0x01].as_slice(),
    );
    Ok(())
}

//! Test vectors of the calls of `Number`.

use crate::same::same;
use arbitrary_int::{Number, TryNewError, u5, u14};

#[test]
fn ends_of_the_range(rt: HostRuntime) {
    same(
        &rt,
        (<u14 as Number>::BITS, <u32 as Number>::BITS),
        (14, 32),
    );
    same(&rt, <u14 as Number>::max_value().value(), 16383);
    same(&rt, <u14 as Number>::min_value().value(), 0);
    same(&rt, <u8 as Number>::max_value(), 255);
}

#[test]
fn values_are_made_and_read(rt: HostRuntime) {
    same(&rt, <u14 as Number>::new(300), u14::new(300));
    same(&rt, <u14 as Number>::try_new(16383), Ok(u14::new(16383)));
    same(&rt, <u14 as Number>::try_new(16384), Err(TryNewError));
    same(&rt, <u14 as Number>::value(u14::new(300)), 300);
}

#[test]
fn values_are_converted(rt: HostRuntime) {
    same(&rt, <u14 as Number>::from_(u5::new(21)), u14::new(21));
    same(&rt, <u5 as Number>::masked_new(300u16), u5::new(12));
    same(&rt, <u14 as Number>::as_::<u5>(u14::new(300)), u5::new(12));
}

#[test]
fn primitives_by_their_low_bits(rt: HostRuntime) {
    let number = 0x0123_4567_89ab_cdef_0fed_cba9_8765_4321u128;
    same(&rt, Number::as_u8(&number), 0x21);
    same(&rt, Number::as_u16(&number), 0x4321);
    same(&rt, Number::as_u32(&number), 0x8765_4321);
    same(&rt, Number::as_u64(&number), 0x0fed_cba9_8765_4321);
    same(&rt, Number::as_usize(&number), 0x0fed_cba9_8765_4321);
    same(&rt, Number::as_u128(&u14::new(300)), 300);
}

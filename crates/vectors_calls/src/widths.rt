//! Test vectors of `run_wide`. `lib` says where the values come from.

ghost use Rattle.std.specs.Prelude.{◌≡◌, length};

use crate::same::same;
use crate::steps::two;
use arbitrary_int::prelude::*;
use arbitrary_int::{ByOp, OneOp, Step, Stop, TwoOp, Why, run, run_wide, well_formed};
use std::process::Abort;

/// A left shift of register 0.
fn shifted(amount: u32) -> [Step; 1] {
    [Step::By {
        op: ByOp::WrappingShl,
        to: 0,
        src: 0,
        amount,
    }]
}

/// Register 0 times register 1, then each bit of register 1 turned over.
fn product_and_complement() -> [Step; 2] {
    [
        two(TwoOp::WrappingMul, 0, 0, 1),
        Step::One {
            op: OneOp::Not,
            to: 1,
            src: 1,
        },
    ]
}

/// Runs the steps at both widths, and then on registers that are truncated first. No run stops.
fn runs<W: FixedWidthCalls, N: FixedWidthCalls>(
    rt: &impl Abort,
    steps: &[Step],
    wide: &mut [W],
    narrow: &mut [N],
    first: &mut [N],
)
    requires narrow { length narrow.old ≡ length wide.old }
    requires first { length first.old ≡ length wide.old }
{
    assert!(rt; well_formed(steps, wide.len()));
    same(rt, run_wide(steps, wide, narrow), Ok(()));
    same(rt, run(steps, first), Ok(()));
}

#[test]
fn a_shift_by_the_narrow_width_is_no_low_bit_step(rt: HostRuntime) {
    let steps = shifted(7);
    let mut wide = [u14::new(1)];
    let mut narrow = [u7::new(0)];
    let mut first = [u7::new(1)];
    runs(&rt, &steps, &mut wide, &mut narrow, &mut first);
    same(&rt, wide, [u14::new(128)]);
    same(&rt, narrow, [u7::new(0)]);
    same(&rt, first, [u7::new(1)]);
}

#[test]
fn a_shift_below_the_narrow_width_is_one(rt: HostRuntime) {
    let steps = shifted(6);
    let mut wide = [u14::new(3)];
    let mut narrow = [i7::new(0)];
    let mut first = [i7::new(3)];
    runs(&rt, &steps, &mut wide, &mut narrow, &mut first);
    same(&rt, wide, [u14::new(192)]);
    same(&rt, narrow, [i7::new(-64)]);
    same(&rt, first, narrow);
}

#[test]
fn low_bits_without_a_sign(rt: HostRuntime) {
    let steps = product_and_complement();
    let mut wide = [u14::new(200), u14::new(300)];
    let mut narrow = [u7::new(0), u7::new(0)];
    let mut first = [u7::new(72), u7::new(44)];
    runs(&rt, &steps, &mut wide, &mut narrow, &mut first);
    same(&rt, wide, [u14::new(10848), u14::new(16083)]);
    same(&rt, narrow, [u7::new(96), u7::new(83)]);
    same(&rt, first, narrow);
}

#[test]
fn low_bits_with_a_sign(rt: HostRuntime) {
    let steps = product_and_complement();
    let mut wide = [u14::new(200), u14::new(300)];
    let mut narrow = [i7::new(0), i7::new(0)];
    let mut first = [i7::new(-56), i7::new(44)];
    runs(&rt, &steps, &mut wide, &mut narrow, &mut first);
    same(&rt, wide, [u14::new(10848), u14::new(16083)]);
    same(&rt, narrow, [i7::new(-32), i7::new(-45)]);
    same(&rt, first, narrow);
}

#[test]
fn the_narrow_registers_are_returned_after_a_stop_too(rt: HostRuntime) {
    let steps = [two(TwoOp::CheckedAdd, 0, 0, 1)];
    let mut wide = [u14::new(200), u14::new(16383)];
    let mut narrow = [u7::new(0), u7::new(0)];
    let why = Why::Refused;
    assert!(rt; well_formed(&steps, 2));
    same(
        &rt,
        run_wide(&steps, &mut wide, &mut narrow),
        Err(Stop { at: 0, why }),
    );
    same(&rt, wide, [u14::new(200), u14::new(16383)]);
    same(&rt, narrow, [u7::new(72), u7::new(127)]);
}

#[test]
fn no_steps_on_no_registers_of_two_widths(rt: HostRuntime) {
    let mut wide: [u14; 0] = [];
    let mut narrow: [u7; 0] = [];
    assert!(rt; well_formed(&[], 0));
    same(&rt, run_wide(&[], &mut wide, &mut narrow), Ok(()));
}

#[test]
fn checked_steps_give_the_same_at_a_wider_type(rt: HostRuntime) {
    let steps = [
        two(TwoOp::CheckedMul, 0, 0, 1),
        two(TwoOp::CheckedSub, 1, 1, 0),
    ];
    let mut narrow = [i7::new(-7), i7::new(7)];
    let mut wide = [i14::new(-7), i14::new(7)];
    assert!(rt; well_formed(&steps, 2));
    same(&rt, run(&steps, &mut narrow), Ok(()));
    same(&rt, run(&steps, &mut wide), Ok(()));
    same(&rt, narrow, [i7::new(-49), i7::new(56)]);
    same(&rt, wide, [i14::new(-49), i14::new(56)]);
}

#[test]
fn a_wider_type_has_room_for_the_step_that_stops(rt: HostRuntime) {
    let steps = [
        two(TwoOp::CheckedMul, 0, 0, 1),
        two(TwoOp::CheckedSub, 1, 1, 0),
        two(TwoOp::CheckedMul, 0, 0, 1),
    ];
    let mut narrow = [i7::new(-7), i7::new(7)];
    let mut wide = [i14::new(-7), i14::new(7)];
    let why = Why::Refused;
    assert!(rt; well_formed(&steps, 2));
    same(&rt, run(&steps, &mut narrow), Err(Stop { at: 2, why }));
    same(&rt, run(&steps, &mut wide), Ok(()));
    same(&rt, narrow, [i7::new(-49), i7::new(56)]);
    same(&rt, wide, [i14::new(-2744), i14::new(56)]);
}

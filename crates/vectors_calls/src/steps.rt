//! Test vectors of `run`: the registers that a list of steps leaves, and where and why it stops. `widths` has
//! runs at two widths.
//!
//! The contract of `run` refers to a definition. These values come from outside, so a test that fails shows a
//! wrong definition.

use crate::same::same;
use arbitrary_int::prelude::*;
use arbitrary_int::{ByOp, OneOp, Step, Stop, TwoOp, Why, run, well_formed};
use std::process::Abort;

/// The step of an operation on two registers.
pub fn two(op: TwoOp, to: usize, left: usize, right: usize) -> Step {
    Step::Two {
        op,
        to,
        left,
        right,
    }
}

/// The complement of a register.
fn complement(to: usize, src: usize) -> Step {
    Step::One {
        op: OneOp::Not,
        to,
        src,
    }
}

/// A register shifted left by 3.
fn shifted(to: usize, src: usize) -> Step {
    Step::By {
        op: ByOp::WrappingShl,
        to,
        src,
        amount: 3,
    }
}

/// What the steps leave of the registers, and how the run ends. A test that calls this looks up no trait of the registers' type.
fn leaves(
    rt: &impl Abort,
    steps: &[Step],
    registers: &mut [u7],
    wanted: &[u7],
    ending: Result<(), Stop>,
) {
    assert!(rt; well_formed(steps, registers.len()));
    same(rt, run(steps, registers), ending);
    same(rt, &*registers, wanted);
}

/// Three numbers as registers.
fn registers_of(numbers: [u8; 3]) -> [u7; 3] {
    [
        u7::masked_new(numbers[0]),
        u7::masked_new(numbers[1]),
        u7::masked_new(numbers[2]),
    ]
}

#[test]
fn no_steps_change_nothing(rt: HostRuntime) {
    leaves(&rt, &[], &mut [], &[], Ok(()));
}

#[test]
fn a_register_may_be_read_twice_and_written(rt: HostRuntime) {
    let steps = [two(TwoOp::WrappingAdd, 0, 0, 0)];
    leaves(&rt, &steps, &mut [u7::new(100)], &[u7::new(72)], Ok(()));
}

#[test]
fn a_refused_step_ends_the_run_and_keeps_the_earlier_ones(rt: HostRuntime) {
    let steps = [
        two(TwoOp::WrappingAdd, 2, 0, 1),
        two(TwoOp::CheckedAdd, 0, 0, 1),
    ];
    let why = Why::Refused;
    leaves(
        &rt,
        &steps,
        &mut registers_of([100, 50, 0]),
        &registers_of([100, 50, 22]),
        Err(Stop { at: 1, why }),
    );
}

#[test]
fn a_zero_divisor_stops_a_division(rt: HostRuntime) {
    for (op, why) in [
        (TwoOp::SaturatingDiv, Why::ZeroDivisor),
        (TwoOp::CheckedDiv, Why::Refused),
    ] {
        let stop = Stop { at: 0, why };
        leaves(
            &rt,
            &[two(op, 0, 0, 2)],
            &mut registers_of([100, 50, 0]),
            &registers_of([100, 50, 0]),
            Err(stop),
        );
    }
}

#[test]
fn well_formed_knows_the_registers(rt: HostRuntime) {
    let beyond = [two(TwoOp::WrappingAdd, usize::MAX, 0, 0)];
    same(&rt, well_formed(&beyond, 3), false);
    let first = [two(TwoOp::WrappingAdd, 0, 0, 0)];
    assert!(rt; well_formed(&first, 1));
    same(&rt, well_formed(&first, 0), false);
}

#[test]
fn a_register_whose_number_is_the_count_is_none_of_them(rt: HostRuntime) {
    for step in [
        two(TwoOp::WrappingSub, 2, 0, 1),
        two(TwoOp::WrappingSub, 0, 2, 1),
        two(TwoOp::WrappingSub, 0, 1, 2),
        complement(2, 0),
        complement(0, 2),
        shifted(2, 0),
        shifted(0, 2),
    ] {
        let steps = [step];
        same(&rt, well_formed(&steps, 3), true);
        same(&rt, well_formed(&steps, 2), false);
    }
}

/// What one step leaves of the registers 100, 50 and 7.
fn one_leaves(rt: &impl Abort, step: Step, wanted: [u8; 3]) {
    leaves(
        rt,
        &[step],
        &mut registers_of([100, 50, 7]),
        &registers_of(wanted),
        Ok(()),
    );
}

#[test]
fn the_sources_are_read_before_the_target_is_written(rt: HostRuntime) {
    one_leaves(&rt, two(TwoOp::WrappingSub, 0, 0, 1), [50, 50, 7]);
    one_leaves(&rt, two(TwoOp::WrappingSub, 0, 1, 0), [78, 50, 7]);
    one_leaves(&rt, two(TwoOp::WrappingSub, 0, 0, 0), [0, 50, 7]);
    one_leaves(&rt, two(TwoOp::WrappingSub, 2, 1, 2), [100, 50, 43]);
    one_leaves(&rt, two(TwoOp::WrappingSub, 2, 2, 1), [100, 50, 85]);
    one_leaves(&rt, complement(0, 0), [27, 50, 7]);
    one_leaves(&rt, complement(2, 2), [100, 50, 120]);
    one_leaves(&rt, shifted(0, 0), [32, 50, 7]);
    one_leaves(&rt, shifted(2, 2), [100, 50, 56]);
}

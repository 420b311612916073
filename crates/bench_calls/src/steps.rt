//! Runs a long list of steps in memory.

ghost use Rattle.std.specs.Prelude.{All};
ghost use Rattle.arbitrary_int.specs.Steps.{StepWithin};

use arbitrary_int::prelude::*;
use arbitrary_int::{ByOp, OneOp, Step, TwoOp, run, well_formed};
use std::alloc::Global;
use std::io;

fn two(op: TwoOp, word: u64) -> Step {
    Step::Two {
        op,
        to: (word % 16) as usize,
        left: (word / 16 % 16) as usize,
        right: (word / 256 % 16) as usize,
    }
}

fn one(op: OneOp, word: u64) -> Step {
    Step::One {
        op,
        to: (word % 16) as usize,
        src: (word / 16 % 16) as usize,
    }
}

fn by(op: ByOp, word: u64) -> Step {
    Step::By {
        op,
        to: (word % 16) as usize,
        src: (word / 16 % 16) as usize,
        amount: (word / 65536 % 128) as u32,
    }
}

fn step_of(word: u64) -> Step {
    match (word >> 40) % 14 {
        0 => two(TwoOp::WrappingAdd, word),
        1 => two(TwoOp::WrappingSub, word),
        2 => two(TwoOp::WrappingMul, word),
        3 => two(TwoOp::SaturatingAdd, word),
        4 => two(TwoOp::SaturatingSub, word),
        5 => two(TwoOp::SaturatingMul, word),
        6 => two(TwoOp::And, word),
        7 => two(TwoOp::Or, word),
        8 => two(TwoOp::Xor, word),
        9 => one(OneOp::Not, word),
        10 => one(OneOp::ReverseBits, word),
        11 => by(ByOp::WrappingShl, word),
        12 => by(ByOp::RotateLeft, word),
        _ => one(OneOp::WrappingNeg, word),
    }
}

fn many(alloc: Global, count: u32) -> io::Result<Vec<Step>> {
    let mut steps = Vec::new(alloc);
    let mut word = 1u64;
    for _ in 0..count {
        word = word
            .wrapping_mul(6364136223846793005)
            .wrapping_add(1442695040888963407);
        steps.push(step_of(word >> 8))?;
    }
    Ok(steps)
}

/// Runs the list `passes` times, and returns whether no run stopped.
fn repeated<R: FixedWidthCalls>(steps: &[Step], registers: &mut [R; 16], passes: u32) -> bool
    requires { All (StepWithin 16) steps.now }
{
    for _ in 0..passes {
        if run(steps, registers).is_err() {
            return false;
        }
    }
    true
}

/// Sixteen numbers of all sizes. The width is valid.
fn initial<R: Numbered>() -> [R; 16]
    requires { R.valid }
{
    let mut registers = [R::from_u128_bits(0); 16];
    let mut pattern = 0u128;
    for i in 0..16 {
        registers[i] = R::from_u128_bits(pattern);
        pattern = pattern.wrapping_add(0x9e37_79b9_7f4a_7c15_f39c_c060_5ced_c835);
    }
    registers
}

fn measure_u7(rt: &impl Print, steps: &[Step], passes: u32) -> io::Result<()>
    requires { All (StepWithin 16) steps.now }
{
    let mut registers = initial::<u7>();
    if !repeated(steps, &mut registers, passes) {
        return println!(rt; "it stopped");
    }
    let (a, b, c) = (registers[0], registers[7], registers[15]);
    println!(rt; "{a} {b} {c}")
}

fn measure_i14(rt: &impl Print, steps: &[Step], passes: u32) -> io::Result<()>
    requires { All (StepWithin 16) steps.now }
{
    let mut registers = initial::<i14>();
    if !repeated(steps, &mut registers, passes) {
        return println!(rt; "it stopped");
    }
    let (a, b, c) = (registers[0], registers[7], registers[15]);
    println!(rt; "{a} {b} {c}")
}

fn measure_u120(rt: &impl Print, steps: &[Step], passes: u32) -> io::Result<()>
    requires { All (StepWithin 16) steps.now }
{
    let mut registers = initial::<u120>();
    if !repeated(steps, &mut registers, passes) {
        return println!(rt; "it stopped");
    }
    let (a, b, c) = (registers[0], registers[7], registers[15]);
    println!(rt; "{a} {b} {c}")
}

/// Runs a list of `count` steps at that type `passes` times, after `checks` tests that its indices are in range.
pub fn run_steps(
    rt: &impl Print,
    alloc: Global,
    name: &str,
    count: u32,
    passes: u32,
    checks: u32,
) -> io::Result<()> {
    let steps = many(alloc, count)?;
    for i in 0..checks {
        if !well_formed(steps.as_slice(), 16 + i as usize) {
            return println!(rt; "a step is out of range");
        }
    }
    if !well_formed(steps.as_slice(), 16) {
        return println!(rt; "a step is out of range");
    }
    match name {
        "u7" => measure_u7(rt, steps.as_slice(), passes),
        "i14" => measure_i14(rt, steps.as_slice(), passes),
        "u120" => measure_u120(rt, steps.as_slice(), passes),
        _ => println!(rt; "no such type"),
    }
}

//! Lists of steps on registers.

use arbitrary_int::prelude::*;
use arbitrary_int::{Step, TwoOp, well_formed};
use examples::steps::{run_in_both, run_tested};
use std::io;

/// Runs two steps on three registers of 7 bits, and prints the registers and how the run ended.
///
/// The first step adds registers 0 and 1 into register 2 and wraps. The second adds them again and is
/// refused, since 150 is out of range.
pub fn show(rt: &impl Print) -> io::Result<()> {
    let sum = |op, to| Step::Two {
        op,
        to,
        left: 0,
        right: 1,
    };
    let steps = [sum(TwoOp::WrappingAdd, 2), sum(TwoOp::CheckedAdd, 0)];
    let mut registers = [u7::new(100), u7::new(50), u7::new(0)];
    let ending = run_tested(&steps, &mut registers);
    let left = &registers[..];
    println!(rt; "{} {} {}", left[0], left[1], left[2])?;
    match ending {
        Some(Ok(())) => println!(rt; "done"),
        Some(Err(stop)) => println!(rt; "stopped at {}: {:?}", stop.at, stop.why),
        None => println!(rt; "a step names a register that is not there"),
    }?;
    show_storages(rt, &steps)
}

/// Runs the steps on registers of 7 bits in bytes and in words of 32 bits, and prints whether both end alike.
fn show_storages(rt: &impl Print, steps: &[Step]) -> io::Result<()> {
    let mut bytes = [u7::new(100), u7::new(50), u7::new(0)];
    let mut words = [
        UInt::<u32, 7>::new(100),
        UInt::<u32, 7>::new(50),
        UInt::<u32, 7>::new(0),
    ];
    if well_formed(steps, bytes.len()) {
        let (left, right) = run_in_both(steps, &mut bytes, &mut words);
        let words = &words[..];
        println!(rt; "{} {}", left == right, words[2])
    } else {
        println!(rt; "a step names a register that is not there")
    }
}

//! The same steps at two widths.

use arbitrary_int::prelude::*;
use arbitrary_int::{Step, TwoOp};
use examples::widths::{low_product, moved};
use std::io;

/// Prints a product's low bits, and registers of 7 and of 14 bits after the same steps.
pub fn show(rt: &impl Print) -> io::Result<()> {
    println!(rt; "{}", low_product(u14::new(200), u14::new(300)))?;
    let steps = [
        Step::Two {
            op: TwoOp::CheckedMul,
            to: 0,
            left: 0,
            right: 1,
        },
        Step::Two {
            op: TwoOp::CheckedSub,
            to: 1,
            left: 1,
            right: 0,
        },
    ];
    let mut registers = [i7::new(-7), i7::new(7)];
    let mut wider = [i14::new(-7), i14::new(7)];
    let _endings = moved(&steps, &mut registers, &mut wider);
    let (left, right) = (&registers[..], &wider[..]);
    println!(rt; "{} {} {} {}", left[0], left[1], right[0], right[1])
}

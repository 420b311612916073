//! Samples of a sensor.

use arbitrary_int::prelude::*;
use examples::sensor::{amplified, difference, millivolts, sample, second_sample, sum};
use std::io;

/// Prints what becomes of a few samples.
pub fn show(rt: &impl Print) -> io::Result<()> {
    let high = sample(0x07FF);
    let low = sample(0xF800);
    println!(rt; "{high} {low} {}", second_sample(0x00FF_E000))?;
    println!(rt;
        "{} {}",
        amplified(high, i12::new(2)),
        amplified(low, i12::new(-1))
    )?;
    println!(rt; "{} {}", difference(low, high), millivolts(low))?;
    println!(rt;
        "{:?} {:?}",
        sum(&[high, low, high]),
        sum(&[high, high, low])
    )
}

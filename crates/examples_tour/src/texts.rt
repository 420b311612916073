//! Numbers as text in other bases.

use arbitrary_int::prelude::*;
use examples::texts::{hexadecimal, pattern};
use std::alloc::Global;
use std::io;

/// Prints a number of any integer type in decimal and to three other bases.
pub fn show_bases<T: Integer>(rt: &impl Print, value: T) -> io::Result<()> {
    println!(rt; "{value} {value:#X} {value:o} {value:08b}")
}

/// Prints a few numbers.
pub fn show(rt: &impl Print, alloc: Global) -> io::Result<()> {
    let count = hexadecimal(alloc, u14::new(500))?;
    let sample = pattern(alloc, i12::new(-2))?;
    println!(rt; "{count} {sample}")?;
    show_bases(rt, u5::new(10))?;
    show_bases(rt, i7::new(-3))
}

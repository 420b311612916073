//! The timer's control register in a record.

use arbitrary_int::prelude::*;
use bit_fields::Record;
use examples::timer::{read, start};
use std::io;

/// Prints the register once the timer is started, and its mode.
pub fn show(rt: &impl Print) -> io::Result<()> {
    let mut register = Record { bits: 0xFF03_E86A };
    start(&mut register, u14::new(500));
    println!(rt; "{:x} {}", register.bits, read(&register).mode)
}

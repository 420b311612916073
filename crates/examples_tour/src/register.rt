//! A timer's control register.

use arbitrary_int::prelude::*;
use examples::register::{Control, started};
use std::io;

/// Prints a register's fields, and the register once the timer is started.
pub fn show(rt: &impl Print) -> io::Result<()> {
    let register = 0x0003_E82A;
    let control = Control::read(register);
    println!(rt;
        "{} {} {} {}",
        control.enable, control.prescaler, control.mode, control.reload
    )?;
    println!(rt; "{:x}", started(register, u14::new(500)))
}

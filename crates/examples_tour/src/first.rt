//! The first calls.

use arbitrary_int::prelude::*;
use examples::first::{mixed, mode, next};
use std::io;

/// Prints what each gives.
pub fn show(rt: &impl Print) -> io::Result<()> {
    println!(rt;
        "{} {} {}",
        mode(0x2f),
        next(u14::new(16383)),
        mixed(i12::new(2047), i12::new(1))
    )
}

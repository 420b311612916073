//! Code for every width.

use arbitrary_int::prelude::*;
use examples::generic::{mean, parity};
use std::io;

/// Prints both for several types.
pub fn show(rt: &impl Print) -> io::Result<()> {
    println!(rt; "{} {}", mean(u7::new(127), u7::new(126)), mean(255u8, 0u8))?;
    println!(rt;
        "{} {} {}",
        u10::BITS,
        parity(u10::new(0b111)),
        parity(i10::new(-1))
    )
}

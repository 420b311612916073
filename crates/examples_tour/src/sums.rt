//! Sums at any type of integers.

use arbitrary_int::u7;
use examples::sums::{next_message, wrapped_sum};
use std::io;

/// Prints a message's number, and a byte's sum.
pub fn show(rt: &impl Print) -> io::Result<()> {
    println!(rt;
        "{} {}",
        next_message(u7::new(127)),
        wrapped_sum(200u8, 100u8)
    )
}

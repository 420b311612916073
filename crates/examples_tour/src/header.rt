//! A packet header.

use examples::header::{Fragment, Start, with_congestion};
use std::io;

/// Prints a header's fields, the word once the packet met congestion, and a fragment's place.
pub fn show(rt: &impl Print) -> io::Result<()> {
    let word = 0x45B9_05DC;
    let start = Start::decode(word);
    println!(rt;
        "{} {} {} {} {}",
        start.version, start.header_length, start.dscp, start.ecn, start.total_length
    )?;
    println!(rt; "{:x}", with_congestion(word))?;
    let fragment = Fragment::decode(0x20B9);
    let first_byte = fragment.first_byte();
    println!(rt;
        "{} {} {first_byte}",
        fragment.dont_fragment, fragment.more_fragments
    )
}

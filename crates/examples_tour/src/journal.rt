//! A log of readings.

use arbitrary_int::Watched;
use examples::journal::{read, written_and_read};
use std::alloc::Global;
use std::io;

/// Prints the records of a log.
pub fn show(rt: &impl Print, alloc: Global) -> io::Result<()> {
    let log = [
        0x10, 0x27, 0, 0, 0, 2, 0x2C, 0x01, 0xFF, 0x0F, 0x11, 0x27, 0, 0, 0, 7, 0x05, 0, 0x40, 0,
    ];
    let mut reader = Watched::new(log.as_slice());
    for _ in 0..2 {
        let line = written_and_read(alloc, read(&mut reader)?)?;
        println!(rt;
            "{} {} {} {}",
            line.time, line.level, line.source, line.reading
        )?;
    }
    Ok(())
}

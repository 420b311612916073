//! Runs whose register numbers pass a test.

use arbitrary_int::prelude::*;
use arbitrary_int::{Step, Stop, run, well_formed};

/// Runs the steps, and gives `None` where one names a register that is not there.
pub fn run_tested(steps: &[Step], registers: &mut [u7]) -> Option<Result<(), Stop>> {
    if well_formed(steps, registers.len()) {
        Some(run(steps, registers))
    } else {
        None
    }
}

//! Reads registers and steps as text from standard input, runs the steps, and writes the registers.
//! `bitrun_service` describes the text.
#![tactic(auto)]

#[cfg(test)]
mod tests;

use arbitrary_int::Watched;
use bitrun_service::serving::serve;
use bitrun_text::fault::Fault;
use std::io;
use std::process::ExitCode;

fn main(rt: HostRuntime) -> ExitCode {
    // Without a buffer: `serve` reads in chunks.
    let mut reader = Watched::new(rt.stdin());
    let mut writer = Watched::new(io::writer(&rt));
    match serve(rt.alloc(), &mut reader, &mut writer) {
        Ok(()) => ExitCode::SUCCESS,
        Err(fault) => {
            if fault != Fault::Write {
                // The status reports the fault even if its text cannot be written.
                let _ = println!(rt; "{fault}");
            }
            ExitCode::from(fault.status())
        }
    }
}

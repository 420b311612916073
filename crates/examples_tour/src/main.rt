//! Prints the results of the examples. Each module prints those of the example of the same name.
#![tactic(auto)]

use std::io;

mod can;
mod first;
mod frame;
mod generic;
mod header;
mod journal;
mod keys;
mod register;
mod sensor;
mod steps;
mod sums;
mod texts;
mod timer;
mod widths;

fn main(rt: HostRuntime) -> io::Result<()> {
    first::show(&rt)?;
    register::show(&rt)?;
    header::show(&rt)?;
    frame::show(&rt)?;
    sensor::show(&rt)?;
    journal::show(&rt, rt.alloc())?;
    steps::show(&rt)?;
    widths::show(&rt)?;
    generic::show(&rt)?;
    timer::show(&rt)?;
    can::show(&rt)?;
    texts::show(&rt, rt.alloc())?;
    keys::show(&rt, rt.alloc())?;
    sums::show(&rt)
}

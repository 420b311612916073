//! Numbers of a few bits as keys.

use arbitrary_int::prelude::*;
use examples::keys::{priority, set_priority};
use std::alloc::Global;
use std::collections::{BTreeMap, HashMap};
use std::io;

/// Prints the priorities of two lines, and corrections in the order of their steps.
pub fn show(rt: &impl Print, alloc: Global) -> io::Result<()> {
    let mut priorities = HashMap::new(alloc);
    set_priority(&mut priorities, u5::new(11), u7::new(9))?;
    println!(rt;
        "{} {}",
        priority(&priorities, u5::new(11)),
        priority(&priorities, u5::new(12))
    )?;
    let mut corrections = BTreeMap::new(alloc);
    corrections.insert(i3::new(3), 25u8)?;
    corrections.insert(i3::new(-4), 40u8)?;
    for (step, times) in corrections.iter() {
        println!(rt; "{step}: {times}")?;
    }
    Ok(())
}

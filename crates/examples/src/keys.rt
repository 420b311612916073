//! Numbers of a few bits as keys: the priorities of the lines of an interrupt controller.

ghost use Rattle.std.specs.Prelude.{◌≡◌, pos, Some, IfSome, IfNone, OnOk};
ghost use Rattle.std.specs.Ordering.{int_eq};
ghost use Rattle.std.specs.HashMap.{get};

use arbitrary_int::prelude::*;
use std::alloc::{AllocFailed, Global};
use std::collections::HashMap;

/// Gives a line its priority.
pub fn set_priority(
    priorities: &mut HashMap<u5, u7>,
    line: u5,
    priority: u7,
) -> Result<(), AllocFailed<(u5, u7)>>
    ensures { OnOk result (get int_eq priorities.new line ≡ Some priority) }
{
    priorities.insert(line, priority)?;
    Ok(())
}

/// The priority of a line: 0 where none was given.
pub fn priority(priorities: &HashMap<u5, u7>, line: u5) -> u7
    ensures given { IfSome (get int_eq priorities.now line) (λ priority. result ≡ priority) }
    ensures none { IfNone (get int_eq priorities.now line) (result ≡ pos 0) }
{
    match priorities.get(&line) {
        Some(priority) => *priority,
        None => u7::new(0),
    }
}

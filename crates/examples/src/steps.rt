//! Lists of steps on registers.

ghost use Rattle.std.specs.Prelude.{◌≡◌, ◌↔◌, length, map, IsNone, IfSome, All};
ghost use Rattle.arbitrary_int.specs.Steps.{StepWithin};
ghost use Rattle.arbitrary_int.specs.Runs.{RunOf};

use arbitrary_int::prelude::*;
use arbitrary_int::{Step, Stop, run, well_formed};

/// Runs the steps and returns how the run ended. If a step names a register that does not exist, nothing runs, and the result is
/// `None`.
pub fn run_tested<R: FixedWidthCalls>(
    steps: &[Step],
    registers: &mut [R],
) -> Option<Result<(), Stop>>
    ensures none { IsNone result ↔ ¬ (All (StepWithin (length registers.old)) steps.now) }
    ensures ending { IfSome result
        (λ ending. ending ≡ (RunOf R.IS_SIGNED R.BITS steps.now (map R.number registers.old)).1) }
    ensures registers { IfSome result
        (λ _. map R.number registers.new
        ≡ (RunOf R.IS_SIGNED R.BITS steps.now (map R.number registers.old)).0) }
{
    if well_formed(steps, registers.len()) {
        Some(run(steps, registers))
    } else {
        None
    }
}

/// Runs the steps on registers of two types of one sign and one width, which have the same numbers. Both runs
/// leave the same numbers and end alike, whatever primitives keep them.
pub fn run_in_both<A: FixedWidthCalls, B: FixedWidthCalls>(
    steps: &[Step],
    left: &mut [A],
    right: &mut [B],
) -> (Result<(), Stop>, Result<(), Stop>)
    requires within { All (StepWithin (length left.old)) steps.now }
    requires sign { A.IS_SIGNED ≡ B.IS_SIGNED }
    requires width { A.BITS ≡ B.BITS }
    requires alike { map A.number left.old ≡ map B.number right.old }
    ensures registers { map A.number left.new
        ≡ (RunOf A.IS_SIGNED A.BITS steps.now (map A.number left.old)).0 }
    ensures ending { result.0 ≡ (RunOf A.IS_SIGNED A.BITS steps.now (map A.number left.old)).1 }
    ensures same_registers { map B.number right.new ≡ map A.number left.new }
    ensures same_ending { result.1 ≡ result.0 }
{
    (run(steps, left), run(steps, right))
}

//! Runs the steps at one type, and returns the text of the registers that they leave.

ghost use Rattle.std.specs.Prelude.{◌≡◌, ◌≤◌, length, map, IfOk, All};
ghost use Rattle.arbitrary_int.specs.Steps.{StepWithin};
ghost use Rattle.arbitrary_int.specs.Runs.{RunOf};
ghost use Rattle.bitrun_service.specs.Output.{output_text, wide_output_text};

use crate::printing::{push_output, push_wide_output};
use arbitrary_int::traits::{FixedWidthCalls, Numbered};
use arbitrary_int::{Step, run, run_wide};
use std::alloc::{AllocError, Allocator};

/// Runs the steps, and returns the text of the registers and of how the run ended.
pub(crate) fn run_text<'a, R: FixedWidthCalls, A: Allocator>(
    alloc: &'a A,
    steps: &[Step],
    registers: &mut [R],
) -> Result<Vec<u8, &'a A>, AllocError>
    requires within { All (StepWithin (length registers.old)) steps.now }
    requires narrow { R.BITS ≤ 120 }
    ensures { IfOk result
        (λ text. text.items ≡ output_text
        (RunOf R.IS_SIGNED R.BITS steps.now (map R.number registers.old))) }
{
    let ending = run(steps, registers);
    let mut text = Vec::new(alloc);
    push_output(&mut text, registers, ending)?;
    Ok(text)
}

/// Runs the steps on the wide registers, and returns the text of these, of their low bits, and of
/// how the run ended.
pub(crate) fn wide_run_text<'a, W: FixedWidthCalls, N: Numbered, A: Allocator>(
    alloc: &'a A,
    steps: &[Step],
    wide: &mut [W],
) -> Result<Vec<u8, &'a A>, AllocError>
    requires within { All (StepWithin (length wide.old)) steps.now }
    requires wide_fits { W.BITS ≤ 120 }
    requires narrow_width { N.valid }
    requires narrow_fits { N.BITS ≤ 120 }
    ensures { IfOk result
        (λ text. text.items ≡ wide_output_text N.IS_SIGNED N.BITS
        (RunOf W.IS_SIGNED W.BITS steps.now (map W.number wide.old))) }
{
    let mut narrow = vec![in alloc; N::masked_new(0u8); wide.len()]?;
    let ending = run_wide(steps, wide, narrow.as_mut_slice());
    let mut text = Vec::new(alloc);
    push_wide_output(&mut text, wide, narrow.as_slice(), ending)?;
    Ok(text)
}

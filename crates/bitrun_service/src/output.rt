//! The output of an input: it reads the lines, and runs the steps at the type that the first line names.
//! `bitrun_text` reads the words, `types` has a function for each type, `running` runs the steps at one type, and
//! `serving` reads and writes the bytes.

ghost use Rattle.std.specs.Prelude.{◌≡◌, ◌≤◌, length, map, filter, IfOk, IfErr, All};
ghost use Rattle.bitrun_text.specs.Kind.{type_row, type_of};
ghost use Rattle.arbitrary_int.specs.Steps.{StepWithin};
ghost use Rattle.std.specs.List.{AllZip};
ghost use Rattle.bitrun_text.specs.Text.{Left, has_items};
ghost use Rattle.bitrun_text.specs.Form.{IsStep, IsValue, LinesFault, FormFault};
ghost use Rattle.bitrun_service.specs.Output.{output_text, wide_output_text, text_for, IsOutput, IsOutputAt};

use crate::running::{run_text, wide_run_text};
use crate::types;
use arbitrary_int::Step;
use arbitrary_int::traits::{FixedWidthCalls, Numbered};
use bitrun_text::fault::Fault;
use bitrun_text::kind::{Kind, RegisterType, WidePair, kind_named};
use bitrun_text::parsing::{registers, steps};
use bitrun_text::text::Cursor;
use std::alloc::{AllocError, Allocator};

/// The whole output of an input.
#[tactic(auto, using(crate::proofs::WholeOutputs::outputs))]
pub fn output<'a, A: Allocator>(alloc: &'a A, input: &[u8]) -> Result<Vec<u8, &'a A>, Fault>
    requires { length input.now ≤ 65536 }
    ensures found { IfOk result (λ text. IsOutput input.now text.items) }
    ensures fault { IfErr result (FormFault input.now) }
{
    let Some(mut text) = Cursor::new(input) else {
        return Err(Fault::Line(1));
    };
    let Some(kind) = kind_named(&mut text) else {
        return Err(Fault::Line(1));
    };
    if !text.next_line() {
        return Err(Fault::Line(2));
    }
    output_with(alloc, kind, &mut text)
}

/// The output of the lines from the second on, with registers of this kind.
fn output_with<'a, A: Allocator>(
    alloc: &'a A,
    kind: Kind,
    lines: &mut Cursor,
) -> Result<Vec<u8, &'a A>, Fault>
    requires { length lines.old.later ≤ 65536 }
    ensures found { IfOk result
        (λ text. IsOutputAt (type_row (type_of kind)).1 (type_row (type_of kind)).2
        (text_for kind) lines.old.words lines.old.later text.items) }
    ensures fault { IfErr result
        (LinesFault (type_row (type_of kind)).1
        (type_row (type_of kind)).2 lines.old.words lines.old.later) }
{
    match kind {
        Kind::Run(RegisterType::U1) => types::output_u1(alloc, lines),
        Kind::Run(RegisterType::I1) => types::output_i1(alloc, lines),
        Kind::Run(RegisterType::U7) => types::output_u7(alloc, lines),
        Kind::Run(RegisterType::I7) => types::output_i7(alloc, lines),
        Kind::Run(RegisterType::U14) => types::output_u14(alloc, lines),
        Kind::Run(RegisterType::I14) => types::output_i14(alloc, lines),
        Kind::Run(RegisterType::U120) => types::output_u120(alloc, lines),
        Kind::Run(RegisterType::I120) => types::output_i120(alloc, lines),
        Kind::Wide(WidePair::U14U7) => types::output_u14_u7(alloc, lines),
        Kind::Wide(WidePair::U14I7) => types::output_u14_i7(alloc, lines),
        Kind::Wide(WidePair::I14U7) => types::output_i14_u7(alloc, lines),
        Kind::Wide(WidePair::I120U14) => types::output_i120_u14(alloc, lines),
    }
}

/// The output of the lines from the second on, with registers of the type `R`.
pub fn output_at<'a, R: FixedWidthCalls, A: Allocator>(
    alloc: &'a A,
    lines: &mut Cursor,
) -> Result<Vec<u8, &'a A>, Fault>
    requires width { R.valid }
    requires narrow { R.BITS ≤ 120 }
    requires short { length lines.old.later ≤ 65536 }
    ensures found { IfOk result
        (λ text. IsOutputAt R.IS_SIGNED R.BITS output_text lines.old.words lines.old.later
        text.items) }
    ensures fault { IfErr result (LinesFault R.IS_SIGNED R.BITS lines.old.words lines.old.later) }
{
    let (mut registers, steps) = registers_and_steps::<R, A>(alloc, lines)?;
    Ok(run_text(alloc, steps.as_slice(), registers.as_mut_slice())?)
}

/// The output of the lines from the second on, with registers of the type `W`, and their low bits at the type `N`.
pub fn wide_output_at<'a, W: FixedWidthCalls, N: Numbered, A: Allocator>(
    alloc: &'a A,
    lines: &mut Cursor,
) -> Result<Vec<u8, &'a A>, Fault>
    requires wide_width { W.valid }
    requires wide_fits { W.BITS ≤ 120 }
    requires narrow_width { N.valid }
    requires narrow_fits { N.BITS ≤ 120 }
    requires short { length lines.old.later ≤ 65536 }
    ensures found { IfOk result
        (λ text. IsOutputAt W.IS_SIGNED W.BITS
        (wide_output_text N.IS_SIGNED N.BITS) lines.old.words lines.old.later text.items) }
    ensures fault { IfErr result (LinesFault W.IS_SIGNED W.BITS lines.old.words lines.old.later) }
{
    let (mut wide, steps) = registers_and_steps::<W, A>(alloc, lines)?;
    Ok(wide_run_text::<W, N, A>(alloc, steps.as_slice(), wide.as_mut_slice())?)
}

/// The registers of the second line, and the steps that the later lines name.
fn registers_and_steps<'a, R: Numbered, A: Allocator>(
    alloc: &'a A,
    lines: &mut Cursor,
) -> Result<(Vec<R, &'a A>, Vec<Step, &'a A>), Fault>
    requires width { R.valid }
    requires narrow { R.BITS ≤ 120 }
    requires short { length lines.old.later ≤ 65536 }
    ensures registers { IfOk result
        (λ read. AllZip (IsValue R.IS_SIGNED R.BITS) lines.old.words (map R.number read.0.items)) }
    ensures steps { IfOk result
        (λ read. AllZip (IsStep (length read.0.items))
        (filter has_items lines.old.later) read.1.items) }
    ensures within { IfOk result (λ read. All (StepWithin (length read.0.items)) read.1.items) }
    ensures fault { IfErr result (LinesFault R.IS_SIGNED R.BITS lines.old.words lines.old.later) }
{
    let Some(registers) = registers::<R, A>(alloc, lines)? else {
        return Err(Fault::Line(2));
    };
    let steps = steps(alloc, registers.len(), lines)?;
    Ok((registers, steps))
}

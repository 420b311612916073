//! The output at each type of registers. Each has a function of its own, because the check of a function takes time with the
//! square of the types at which it calls generic code.

ghost use Rattle.std.specs.Prelude.{◌≤◌, true, false, length, IfOk, IfErr};
ghost use Rattle.bitrun_text.specs.Form.{LinesFault};
ghost use Rattle.bitrun_service.specs.Output.{output_text, wide_output_text, IsOutputAt};

use crate::output::{output_at, wide_output_at};
use arbitrary_int::{i1, i7, i14, i120, u1, u7, u14, u120};
use bitrun_text::fault::Fault;
use bitrun_text::text::Cursor;
use std::alloc::Allocator;

/// The output of the lines from the second on, with registers of the type `u1`.
pub fn output_u1<'a, A: Allocator>(
    alloc: &'a A,
    lines: &mut Cursor,
) -> Result<Vec<u8, &'a A>, Fault>
    requires { length lines.old.later ≤ 65536 }
    ensures found { IfOk result
        (λ text. IsOutputAt false 1 output_text lines.old.words lines.old.later text.items) }
    ensures fault { IfErr result (LinesFault false 1 lines.old.words lines.old.later) }
{
    output_at::<u1, A>(alloc, lines)
}

/// The output of the lines from the second on, with registers of the type `i1`.
pub fn output_i1<'a, A: Allocator>(
    alloc: &'a A,
    lines: &mut Cursor,
) -> Result<Vec<u8, &'a A>, Fault>
    requires { length lines.old.later ≤ 65536 }
    ensures found { IfOk result
        (λ text. IsOutputAt true 1 output_text lines.old.words lines.old.later text.items) }
    ensures fault { IfErr result (LinesFault true 1 lines.old.words lines.old.later) }
{
    output_at::<i1, A>(alloc, lines)
}

/// The output of the lines from the second on, with registers of the type `u7`.
pub fn output_u7<'a, A: Allocator>(
    alloc: &'a A,
    lines: &mut Cursor,
) -> Result<Vec<u8, &'a A>, Fault>
    requires { length lines.old.later ≤ 65536 }
    ensures found { IfOk result
        (λ text. IsOutputAt false 7 output_text lines.old.words lines.old.later text.items) }
    ensures fault { IfErr result (LinesFault false 7 lines.old.words lines.old.later) }
{
    output_at::<u7, A>(alloc, lines)
}

/// The output of the lines from the second on, with registers of the type `i7`.
pub fn output_i7<'a, A: Allocator>(
    alloc: &'a A,
    lines: &mut Cursor,
) -> Result<Vec<u8, &'a A>, Fault>
    requires { length lines.old.later ≤ 65536 }
    ensures found { IfOk result
        (λ text. IsOutputAt true 7 output_text lines.old.words lines.old.later text.items) }
    ensures fault { IfErr result (LinesFault true 7 lines.old.words lines.old.later) }
{
    output_at::<i7, A>(alloc, lines)
}

/// The output of the lines from the second on, with registers of the type `u14`.
pub fn output_u14<'a, A: Allocator>(
    alloc: &'a A,
    lines: &mut Cursor,
) -> Result<Vec<u8, &'a A>, Fault>
    requires { length lines.old.later ≤ 65536 }
    ensures found { IfOk result
        (λ text. IsOutputAt false 14 output_text lines.old.words lines.old.later text.items) }
    ensures fault { IfErr result (LinesFault false 14 lines.old.words lines.old.later) }
{
    output_at::<u14, A>(alloc, lines)
}

/// The output of the lines from the second on, with registers of the type `i14`.
pub fn output_i14<'a, A: Allocator>(
    alloc: &'a A,
    lines: &mut Cursor,
) -> Result<Vec<u8, &'a A>, Fault>
    requires { length lines.old.later ≤ 65536 }
    ensures found { IfOk result
        (λ text. IsOutputAt true 14 output_text lines.old.words lines.old.later text.items) }
    ensures fault { IfErr result (LinesFault true 14 lines.old.words lines.old.later) }
{
    output_at::<i14, A>(alloc, lines)
}

/// The output of the lines from the second on, with registers of the type `u120`.
pub fn output_u120<'a, A: Allocator>(
    alloc: &'a A,
    lines: &mut Cursor,
) -> Result<Vec<u8, &'a A>, Fault>
    requires { length lines.old.later ≤ 65536 }
    ensures found { IfOk result
        (λ text. IsOutputAt false 120 output_text lines.old.words lines.old.later text.items) }
    ensures fault { IfErr result (LinesFault false 120 lines.old.words lines.old.later) }
{
    output_at::<u120, A>(alloc, lines)
}

/// The output of the lines from the second on, with registers of the type `i120`.
pub fn output_i120<'a, A: Allocator>(
    alloc: &'a A,
    lines: &mut Cursor,
) -> Result<Vec<u8, &'a A>, Fault>
    requires { length lines.old.later ≤ 65536 }
    ensures found { IfOk result
        (λ text. IsOutputAt true 120 output_text lines.old.words lines.old.later text.items) }
    ensures fault { IfErr result (LinesFault true 120 lines.old.words lines.old.later) }
{
    output_at::<i120, A>(alloc, lines)
}

/// The output of the lines from the second on, with registers of the type `u14`, and their low bits at the type `u7`.
pub fn output_u14_u7<'a, A: Allocator>(
    alloc: &'a A,
    lines: &mut Cursor,
) -> Result<Vec<u8, &'a A>, Fault>
    requires { length lines.old.later ≤ 65536 }
    ensures found { IfOk result
        (λ text. IsOutputAt false 14 (wide_output_text false 7) lines.old.words
        lines.old.later text.items) }
    ensures fault { IfErr result (LinesFault false 14 lines.old.words lines.old.later) }
{
    wide_output_at::<u14, u7, A>(alloc, lines)
}

/// The output of the lines from the second on, with registers of the type `u14`, and their low bits at the type `i7`.
pub fn output_u14_i7<'a, A: Allocator>(
    alloc: &'a A,
    lines: &mut Cursor,
) -> Result<Vec<u8, &'a A>, Fault>
    requires { length lines.old.later ≤ 65536 }
    ensures found { IfOk result
        (λ text. IsOutputAt false 14 (wide_output_text true 7) lines.old.words
        lines.old.later text.items) }
    ensures fault { IfErr result (LinesFault false 14 lines.old.words lines.old.later) }
{
    wide_output_at::<u14, i7, A>(alloc, lines)
}

/// The output of the lines from the second on, with registers of the type `i14`, and their low bits at the type `u7`.
pub fn output_i14_u7<'a, A: Allocator>(
    alloc: &'a A,
    lines: &mut Cursor,
) -> Result<Vec<u8, &'a A>, Fault>
    requires { length lines.old.later ≤ 65536 }
    ensures found { IfOk result
        (λ text. IsOutputAt true 14 (wide_output_text false 7) lines.old.words
        lines.old.later text.items) }
    ensures fault { IfErr result (LinesFault true 14 lines.old.words lines.old.later) }
{
    wide_output_at::<i14, u7, A>(alloc, lines)
}

/// The output of the lines from the second on, with registers of the type `i120`, and their low bits at the type `u14`.
pub fn output_i120_u14<'a, A: Allocator>(
    alloc: &'a A,
    lines: &mut Cursor,
) -> Result<Vec<u8, &'a A>, Fault>
    requires { length lines.old.later ≤ 65536 }
    ensures found { IfOk result
        (λ text. IsOutputAt true 120 (wide_output_text false 14) lines.old.words
        lines.old.later text.items) }
    ensures fault { IfErr result (LinesFault true 120 lines.old.words lines.old.later) }
{
    wide_output_at::<i120, u14, A>(alloc, lines)
}

//! Reads the registers and the steps from their lines.

ghost use Rattle.std.specs.Prelude.{◌≡◌, ◌≤◌, ◌+◌, ◌-◌, ℕ, List, length, drop, map, filter, IfOk, IfErr, MatchOption, All};
ghost use Rattle.arbitrary_int.specs.Steps.{StepWithin};
ghost use Rattle.std.specs.List.{AllZip};
ghost use Rattle.bitrun_text.specs.Text.{Left, has_items, word_lines};
ghost use Rattle.bitrun_text.specs.Form.{IsValue, IsStep, HasRegistersForm, StepsFault, ReadSoFar};

use crate::fast::{after_blanks, fast_line};
use crate::fault::Fault;
use crate::numeral::value_named;
use crate::operation::step_named;
use crate::text::{Cursor, after_line};
use arbitrary_int::Step;
use arbitrary_int::traits::Numbered;
use std::alloc::{AllocError, Allocator};

/// The registers whose numbers a line has, or `None` if a word is no number in range.
pub fn registers<'a, R: Numbered, A: Allocator>(
    alloc: &'a A,
    line: &mut Cursor,
) -> Result<Option<Vec<R, &'a A>>, AllocError>
    requires width { R.valid }
    requires narrow { R.BITS ≤ 120 }
    ensures values { IfOk result (λ found. MatchOption found
        (HasRegistersForm R.IS_SIGNED R.BITS line.old.words → ⊥)
        (λ registers. AllZip (IsValue R.IS_SIGNED R.BITS)
        line.old.words (map R.number registers.items))) }
    ensures later { line.new.later ≡ line.old.later }
{
    let mut registers = Vec::new(alloc);
    while let Some(word) = line.next_word() {
        let Some(value) = value_named(word) else {
            return Ok(None);
        };
        registers.push(value)?;
    }
    Ok(Some(registers))
}

/// The steps that the later lines name, on `count` registers.
pub fn steps<'a, A: Allocator>(
    alloc: &'a A,
    count: usize,
    lines: &mut Cursor,
) -> Result<Vec<Step, &'a A>, Fault>
    requires { length lines.old.later ≤ 65536 }
    ensures found { IfOk result
        (λ steps. AllZip (IsStep count) (filter has_items lines.old.later) steps.items) }
    ensures within { IfOk result (λ steps. All (StepWithin count) steps.items) }
    ensures fault { IfErr result (StepsFault count lines.old.later) }
{
    let mut line = lines.copy();
    // A line of a step has about 11 bytes: this is room for most steps, and not too much for longer lines.
    let mut steps = Vec::with_capacity(alloc, line.text().len() / 16)?;
    let mut number = 2;
    loop {
        let rest = fast_steps(count, after_line(line.text()), &mut steps, &mut number);
        if rest.is_empty() {
            return Ok(steps);
        }
        line.go_to(rest);
        number += 1;
        let mut words = line.copy();
        let Some(word) = words.next_word() else {
            continue;
        };
        let Some(step) = step_named(word, &mut words, count) else {
            return Err(Fault::Line(number));
        };
        line = words;
        steps.push(step)?;
    }
}

/// Appends the steps of the fast lines at the beginning of the text, as long as there is room for
/// them. It counts these lines and the empty ones among them, and returns what follows.
#[inline(never)]
fn fast_steps<'a, 't, A: Allocator>(
    count: usize,
    text: &'t [u8],
    steps: &mut Vec<Step, &'a A>,
    number: &mut usize,
) -> &'t [u8]
    requires { number.old + length (word_lines text.now) ≤ 65538 }
    ensures read { (all : List (List (List ℕ)))
        → ReadSoFar count all steps.old.items number.old (word_lines text.now)
        → ReadSoFar count all steps.new.items number.new (word_lines result.now) }
    ensures order { number.old ≤ number.new }
{
    let mut at = 0;
    while steps.len() < steps.capacity() {
        match fast_line(text, at, count) {
            Some((step, end)) => {
                steps.push_reserved(step);
                *number += 1;
                at = end;
            }
            None => {
                let start = after_indent(text, at);
                let end = after_empty_lines(text, start);
                if end == at {
                    break;
                }
                *number += end - start;
                at = end;
            }
        }
    }
    let (_, rest) = text.split_at(at);
    rest
}

/// The place after the blanks at the place, unless nothing follows them.
fn after_indent(text: &[u8], at: usize) -> usize
    requires { at ≤ length text.now }
    ensures same { word_lines (drop result text.now) ≡ word_lines (drop at text.now) }
    ensures order { at ≤ result }
    ensures room { result ≤ length text.now }
{
    let next = after_blanks(text, at);
    if next == text.len() { at } else { next }
}

/// The place after the lines at the place that have only an LF.
// Inlined, it would take processor registers from the loop over the fast lines.
#[inline(never)]
fn after_empty_lines(text: &[u8], at: usize) -> usize
    requires { at ≤ length text.now }
    ensures read { (count : ℕ) (all : List (List (List ℕ))) (steps : List Step) (number : ℕ)
        → ReadSoFar count all steps number (word_lines (drop at text.now))
        → ReadSoFar count all steps (number + (result - at)) (word_lines (drop result text.now)) }
    ensures counted { (result - at) + length (word_lines (drop result text.now))
        ≡ length (word_lines (drop at text.now)) }
    ensures order { at ≤ result }
    ensures room { result ≤ length text.now }
{
    let mut next = at;
    while next < text.len() && text[next] == b'\n' {
        next += 1;
    }
    next
}

//! Fast lines: steps that begin with the name and end with an LF. A line with single spaces needs no call, so all of
//! it stays in processor registers. If a function returns `None`, the caller reads the line word by word.

ghost use Rattle.std.specs.Prelude.{◌≡◌, ◌≤◌, ◌<◌, ◌+◌, ◌-◌, ◌*◌, ◌^◌, [], true, length, take, drop, get_or, Some, IfSome};
ghost use Rattle.arbitrary_int.specs.Steps.{StepWithin};
ghost use Rattle.bitrun_text.specs.Text.{is_blank, left_of, word_lines};
ghost use Rattle.bitrun_text.specs.Numeral.{first_number};
ghost use Rattle.bitrun_text.specs.Operation.{operation_named, step_with};
ghost use Rattle.bitrun_text.specs.Fast.{BeginsWithNumber, EndsLine, NamesLine, Ends, words_at, later_at};

use crate::numeral::{LARGE, digits, one_digit};
use crate::operation::{Operation, operation_named};
use crate::text::is_blank;
use arbitrary_int::{ByOp, OneOp, Step, TwoOp};

/// The bytes of a name of at most four letters, and the blank after it.
const NAME: usize = 5;

/// The step that the line at the place names, on `count` registers, and the place after the line.
#[inline(always)]
pub fn fast_line(text: &[u8], at: usize, count: usize) -> Option<(Step, usize)>
    requires { at ≤ length text.now }
    ensures step { IfSome result
        (λ p. NamesLine count (drop at text.now) p.0 (drop p.1 text.now)) }
    ensures within { IfSome result (λ p. StepWithin count p.0) }
    ensures order { IfSome result (λ p. at < p.1) }
    ensures room { IfSome result (λ p. p.1 ≤ length text.now) }
{
    if text.len() - at < NAME {
        return None;
    }
    let (operation, name) = name_at(text, at)?;
    let (step, end) = operands(operation, text, name, count)?;
    Some((step, end))
}

/// The operation whose name is at the place, and the place of the blank after the name.
#[inline(always)]
fn name_at(text: &[u8], at: usize) -> Option<(Operation, usize)>
    requires { at + 5 ≤ length text.now }
    ensures name { IfSome result
        (λ p. operation_named (take (p.1 - at) (drop at text.now)) ≡ Some p.0) }
    ensures blank { IfSome result (λ p. is_blank (get_or text.now p.1 0) ≡ true) }
    ensures order { IfSome result (λ p. at < p.1) }
    ensures within { IfSome result (λ p. p.1 < length text.now) }
{
    let end = name_end(text, at);
    let operation = operation_named(&text[at..end])?;
    if is_usual_blank(text[end]) {
        Some((operation, end))
    } else {
        None
    }
}

/// The place after the letters of the name, if it is one.
#[inline(always)]
fn name_end(text: &[u8], at: usize) -> usize
    requires { at + 5 ≤ length text.now }
    ensures some { at < result }
    ensures short { result ≤ at + 4 }
{
    if text[at + 2] <= b' ' {
        at + 2
    } else if text[at + 3] <= b' ' {
        at + 3
    } else {
        at + 4
    }
}

/// The step of an operation with the operands after the blank at the place, and the place after the
/// line.
#[inline(always)]
fn operands(operation: Operation, text: &[u8], at: usize, count: usize) -> Option<(Step, usize)>
    requires blank { is_blank (get_or text.now at 0) ≡ true }
    requires within { at < length text.now }
    ensures step { IfSome result
        (λ p. step_with count operation (words_at text.now at) ≡ Some p.0) }
    ensures within { IfSome result (λ p. StepWithin count p.0) }
    ensures later { IfSome result (λ p. word_lines (drop p.1 text.now) ≡ later_at text.now at) }
    ensures order { IfSome result (λ p. at < p.1) }
    ensures room { IfSome result (λ p. p.1 ≤ length text.now) }
{
    match operation {
        Operation::Two(op) => two(op, text, at, count),
        Operation::One(op) => one(op, text, at, count),
        Operation::By(op) => by(op, text, at, count),
    }
}

#[tactic(auto, using(crate::proofs::StepWords::taken))]
#[inline(always)]
fn two(op: TwoOp, text: &[u8], at: usize, count: usize) -> Option<(Step, usize)>
    requires blank { is_blank (get_or text.now at 0) ≡ true }
    requires within { at < length text.now }
    ensures step { IfSome result
        (λ p. step_with count (Operation.Two op) (words_at text.now at) ≡ Some p.0) }
    ensures within { IfSome result (λ p. StepWithin count p.0) }
    ensures later { IfSome result (λ p. word_lines (drop p.1 text.now) ≡ later_at text.now at) }
    ensures order { IfSome result (λ p. at < p.1) }
    ensures room { IfSome result (λ p. p.1 ≤ length text.now) }
{
    let (to, at) = next_register(text, at, count)?;
    let (left, at) = next_register(text, at, count)?;
    let (right, end) = last_register(text, at, count)?;
    Some((
        Step::Two {
            op,
            to,
            left,
            right,
        },
        end,
    ))
}

#[tactic(auto, using(crate::proofs::StepWords::taken))]
#[inline(always)]
fn one(op: OneOp, text: &[u8], at: usize, count: usize) -> Option<(Step, usize)>
    requires blank { is_blank (get_or text.now at 0) ≡ true }
    requires within { at < length text.now }
    ensures step { IfSome result
        (λ p. step_with count (Operation.One op) (words_at text.now at) ≡ Some p.0) }
    ensures within { IfSome result (λ p. StepWithin count p.0) }
    ensures later { IfSome result (λ p. word_lines (drop p.1 text.now) ≡ later_at text.now at) }
    ensures order { IfSome result (λ p. at < p.1) }
    ensures room { IfSome result (λ p. p.1 ≤ length text.now) }
{
    let (to, at) = next_register(text, at, count)?;
    let (src, end) = last_register(text, at, count)?;
    Some((Step::One { op, to, src }, end))
}

#[tactic(auto, using(crate::proofs::StepWords::taken))]
#[inline(always)]
fn by(op: ByOp, text: &[u8], at: usize, count: usize) -> Option<(Step, usize)>
    requires blank { is_blank (get_or text.now at 0) ≡ true }
    requires within { at < length text.now }
    ensures step { IfSome result
        (λ p. step_with count (Operation.By op) (words_at text.now at) ≡ Some p.0) }
    ensures within { IfSome result (λ p. StepWithin count p.0) }
    ensures later { IfSome result (λ p. word_lines (drop p.1 text.now) ≡ later_at text.now at) }
    ensures order { IfSome result (λ p. at < p.1) }
    ensures room { IfSome result (λ p. p.1 ≤ length text.now) }
{
    let (to, at) = next_register(text, at, count)?;
    let (src, at) = next_register(text, at, count)?;
    let (amount, end) = last_amount(text, at)?;
    Some((
        Step::By {
            op,
            to,
            src,
            amount,
        },
        end,
    ))
}

/// The number of a register after the blank at the place, and the place of the next blank.
#[inline(always)]
fn next_register(text: &[u8], at: usize, count: usize) -> Option<(usize, usize)>
    requires blank { is_blank (get_or text.now at 0) ≡ true }
    requires within { at < length text.now }
    ensures number { IfSome result
        (λ p. first_number count (words_at text.now at) ≡ Some (p.0, words_at text.now p.1)) }
    ensures below { IfSome result (λ p. p.0 < count) }
    ensures later { IfSome result (λ p. later_at text.now p.1 ≡ later_at text.now at) }
    ensures blank { IfSome result (λ p. is_blank (get_or text.now p.1 0) ≡ true) }
    ensures order { IfSome result (λ p. at < p.1) }
    ensures within { IfSome result (λ p. p.1 < length text.now) }
{
    let (number, end) = number(text, at, (count as u64).min(LARGE))?;
    if end < text.len() && is_usual_blank(text[end]) {
        Some((number as usize, end))
    } else {
        None
    }
}

/// The register that ends the line, after the blank at the place, and the place after the line.
#[inline(always)]
fn last_register(text: &[u8], at: usize, count: usize) -> Option<(usize, usize)>
    requires blank { is_blank (get_or text.now at 0) ≡ true }
    requires within { at < length text.now }
    ensures number { IfSome result
        (λ p. first_number count (words_at text.now at) ≡ Some (p.0, [])) }
    ensures below { IfSome result (λ p. p.0 < count) }
    ensures later { IfSome result (λ p. word_lines (drop p.1 text.now) ≡ later_at text.now at) }
    ensures order { IfSome result (λ p. at < p.1) }
    ensures room { IfSome result (λ p. p.1 ≤ length text.now) }
{
    let (number, at) = number(text, at, (count as u64).min(LARGE))?;
    let end = line_end(text, at)?;
    Some((number as usize, end))
}

/// The amount that ends the line, after the blank at the place, and the place after the line.
#[inline(always)]
fn last_amount(text: &[u8], at: usize) -> Option<(u32, usize)>
    requires blank { is_blank (get_or text.now at 0) ≡ true }
    requires within { at < length text.now }
    ensures number { IfSome result
        (λ p. first_number (2 ^ 32) (words_at text.now at) ≡ Some (p.0, [])) }
    ensures later { IfSome result (λ p. word_lines (drop p.1 text.now) ≡ later_at text.now at) }
    ensures order { IfSome result (λ p. at < p.1) }
    ensures room { IfSome result (λ p. p.1 ≤ length text.now) }
{
    let (number, at) = number(text, at, 1 << 32)?;
    let end = line_end(text, at)?;
    Some((number as u32, end))
}

/// The number below the limit, after the blank at the place, and the place after its digits.
#[inline(always)]
fn number(text: &[u8], at: usize, limit: u64) -> Option<(u64, usize)>
    requires blank { is_blank (get_or text.now at 0) ≡ true }
    requires within { at < length text.now }
    requires limit { 10 * limit ≤ 2 ^ 64 }
    ensures number { IfSome result
        (λ p. BeginsWithNumber (drop at text.now) p.0 (drop p.1 text.now)) }
    ensures below { IfSome result (λ p. p.0 < limit) }
    ensures order { IfSome result (λ p. at < p.1) }
    ensures room { IfSome result (λ p. p.1 ≤ length text.now) }
{
    if let Some(digit) = one_digit(text, at + 1) {
        return if digit < limit {
            Some((digit, at + 2))
        } else {
            None
        };
    }
    let start = after_blanks(text, at + 1);
    let (number, end) = digits(text, start, limit);
    if end == start {
        None
    } else {
        Some((number, end))
    }
}

/// The place after the LF, if only blanks come before it.
#[inline(always)]
fn line_end(text: &[u8], at: usize) -> Option<usize>
    requires { at ≤ length text.now }
    ensures line { IfSome result (λ end. EndsLine (drop at text.now) (drop end text.now)) }
    ensures order { IfSome result (λ end. at < end) }
    ensures room { IfSome result (λ end. end ≤ length text.now) }
{
    if at < text.len() && text[at] == b'\n' {
        return Some(at + 1);
    }
    let end = after_blanks(text, at);
    if end < text.len() && text[end] == b'\n' {
        Some(end + 1)
    } else {
        None
    }
}

/// The place after the blanks at the place.
// Inlined, this loop would take processor registers from the numbers.
#[inline(never)]
pub fn after_blanks(text: &[u8], start: usize) -> usize
    requires { start ≤ length text.now }
    ensures same { left_of (drop result text.now) ≡ left_of (drop start text.now) }
    ensures ends { start < result → Ends (drop start text.now) }
    ensures order { start ≤ result }
    ensures room { result ≤ length text.now }
{
    let mut at = start;
    while at < text.len() && is_blank(text[at]) {
        at += 1;
    }
    at
}

/// Whether the byte is a blank. Most blanks are spaces, which the first comparison finds.
#[inline(always)]
fn is_usual_blank(byte: u8) -> bool
    ensures { result ≡ is_blank byte }
{
    byte == b' ' || is_other_blank(byte)
}

// Inlined, the compiler would merge both tests.
#[inline(never)]
fn is_other_blank(byte: u8) -> bool
    ensures { result ≡ is_blank byte }
{
    is_blank(byte)
}

//! The words of a step, and the step that they name. `fast` reads the usual form of a line.

ghost use Rattle.std.specs.Prelude.{◌≡◌, ◌≢◌, ◌∷◌, ◌++◌, ◌<◌, ◌^◌, Some, None, IfSome, MatchOption, All, get_or, codes};
ghost use Rattle.arbitrary_int.specs.Steps.{StepWithin};
ghost use Rattle.bitrun_text.specs.Text.{Left};
ghost use Rattle.bitrun_text.specs.Numeral.{first_number};
ghost use Rattle.bitrun_text.specs.Operation.{operation_named, step_with, step_named};

use crate::numeral::number_below;
use crate::text::Cursor;
use arbitrary_int::{ByOp, OneOp, Step, TwoOp};

/// The operation that the first word of a step names.
#[derive(Clone, Copy, Debug, PartialEq, Eq)]
pub enum Operation {
    /// On two registers.
    Two(TwoOp),
    /// On one register.
    One(OneOp),
    /// On one register and an amount.
    By(ByOp),
}

/// The operation that a word names.
// `w`, `s` and `c` have functions of their own, because the check of a `match` takes time with the square of its cases.
#[tactic(auto, unfolding(crate::specs::Operation::operation_named))]
#[inline(always)]
pub fn operation_named(word: &[u8]) -> Option<Operation>
    ensures { result ≡ operation_named word.now }
{
    match word {
        [b'w', rest @ ..] => wrapping_named(rest),
        [b's', rest @ ..] => saturating_named(rest),
        [b'c', rest @ ..] => checked_named(rest),
        _ => other_named(word),
    }
}

/// The operation named by a `w` and the rest of a word.
#[tactic(auto, unfolding(crate::specs::Operation::operation_named))]
#[inline(always)]
fn wrapping_named(rest: &[u8]) -> Option<Operation>
    ensures { result ≡ operation_named (codes "w" ++ rest.now) }
{
    match rest {
        b"add" => Some(Operation::Two(TwoOp::WrappingAdd)),
        b"sub" => Some(Operation::Two(TwoOp::WrappingSub)),
        b"mul" => Some(Operation::Two(TwoOp::WrappingMul)),
        b"div" => Some(Operation::Two(TwoOp::WrappingDiv)),
        b"shl" => Some(Operation::By(ByOp::WrappingShl)),
        b"shr" => Some(Operation::By(ByOp::WrappingShr)),
        _ => None,
    }
}

/// The operation named by an `s` and the rest of a word.
#[tactic(auto, unfolding(crate::specs::Operation::operation_named))]
#[inline(always)]
fn saturating_named(rest: &[u8]) -> Option<Operation>
    ensures { result ≡ operation_named (codes "s" ++ rest.now) }
{
    match rest {
        b"add" => Some(Operation::Two(TwoOp::SaturatingAdd)),
        b"sub" => Some(Operation::Two(TwoOp::SaturatingSub)),
        b"mul" => Some(Operation::Two(TwoOp::SaturatingMul)),
        b"div" => Some(Operation::Two(TwoOp::SaturatingDiv)),
        b"pow" => Some(Operation::By(ByOp::SaturatingPow)),
        _ => None,
    }
}

/// The operation named by a `c` and the rest of a word.
#[tactic(auto, unfolding(crate::specs::Operation::operation_named))]
#[inline(always)]
fn checked_named(rest: &[u8]) -> Option<Operation>
    ensures { result ≡ operation_named (codes "c" ++ rest.now) }
{
    match rest {
        b"add" => Some(Operation::Two(TwoOp::CheckedAdd)),
        b"sub" => Some(Operation::Two(TwoOp::CheckedSub)),
        b"mul" => Some(Operation::Two(TwoOp::CheckedMul)),
        b"div" => Some(Operation::Two(TwoOp::CheckedDiv)),
        b"shl" => Some(Operation::By(ByOp::CheckedShl)),
        b"shr" => Some(Operation::By(ByOp::CheckedShr)),
        _ => None,
    }
}

/// The operation that a word with another first letter names.
#[tactic(auto, unfolding(crate::specs::Operation::operation_named))]
#[inline(always)]
fn other_named(word: &[u8]) -> Option<Operation>
    requires { All (λ letter. get_or word.now 0 0 ≢ letter) (codes "wsc") }
    ensures { result ≡ operation_named word.now }
{
    match word {
        b"and" => Some(Operation::Two(TwoOp::And)),
        b"or" => Some(Operation::Two(TwoOp::Or)),
        b"xor" => Some(Operation::Two(TwoOp::Xor)),
        b"not" => Some(Operation::One(OneOp::Not)),
        b"rev" => Some(Operation::One(OneOp::ReverseBits)),
        b"neg" => Some(Operation::One(OneOp::WrappingNeg)),
        b"rotl" => Some(Operation::By(ByOp::RotateLeft)),
        b"rotr" => Some(Operation::By(ByOp::RotateRight)),
        _ => None,
    }
}

/// The step that a word and the words after it name, on `count` registers.
#[tactic(auto, unfolding(crate::specs::Operation::step_named))]
pub fn step_named(word: &[u8], operands: &mut Cursor, count: usize) -> Option<Step>
    ensures step { result ≡ step_named count (word.now ∷ operands.old.words) }
    ensures within { IfSome result (StepWithin count) }
    ensures later { operands.new.later ≡ operands.old.later }
{
    let operation = operation_named(word)?;
    step_with(operation, operands, count)
}

/// The step of an operation on `count` registers, with the operands that the line names.
#[tactic(auto, using(crate::proofs::StepWords::taken))]
fn step_with(operation: Operation, operands: &mut Cursor, count: usize) -> Option<Step>
    ensures step { result ≡ step_with count operation operands.old.words }
    ensures within { IfSome result (StepWithin count) }
    ensures later { operands.new.later ≡ operands.old.later }
{
    let step = match operation {
        Operation::Two(op) => Step::Two {
            op,
            to: register(operands, count)?,
            left: register(operands, count)?,
            right: register(operands, count)?,
        },
        Operation::One(op) => Step::One {
            op,
            to: register(operands, count)?,
            src: register(operands, count)?,
        },
        Operation::By(op) => Step::By {
            op,
            to: register(operands, count)?,
            src: register(operands, count)?,
            amount: amount(operands)?,
        },
    };
    if operands.is_at_end() {
        Some(step)
    } else {
        None
    }
}

/// Takes the number of one of `count` registers.
fn register(operands: &mut Cursor, count: usize) -> Option<usize>
    ensures number { MatchOption result (first_number count operands.old.words ≡ None)
        (λ n. first_number count operands.old.words ≡ Some (n, operands.new.words)) }
    ensures within { IfSome result (λ n. n < count) }
    ensures later { operands.new.later ≡ operands.old.later }
{
    let number = number_below(operands.next_word()?, count as u128)?;
    Some(number as usize)
}

/// Takes an amount.
fn amount(operands: &mut Cursor) -> Option<u32>
    ensures number { MatchOption result (first_number (2 ^ 32) operands.old.words ≡ None)
        (λ n. first_number (2 ^ 32) operands.old.words ≡ Some (n, operands.new.words)) }
    ensures later { operands.new.later ≡ operands.old.later }
{
    let number = number_below(operands.next_word()?, 1 << 32)?;
    Some(number as u32)
}

//! `run` and `well_formed`: lists of steps on registers of one type. `widths` has `run_wide`.

ghost use Rattle.std.specs.Prelude.{◌≡◌, ◌↔◌, ◌<◌, ℕ, Bool, map, length, pos, ◌-ℤ◌, IsTrue, MatchResult, Ok, Err, All};
ghost use Rattle.std.specs.Ordering.{int_eq};
ghost use Rattle.arbitrary_base.specs.Residue.{wrap};
ghost use Rattle.arbitrary_int.specs.Steps.{StepWithin, result_of, by_meaning, meaning, one_meaning, target_of, two_meaning};
ghost use Rattle.arbitrary_int.specs.Runs.{RunOf};
ghost use Rattle.arbitrary_int.specs.Widths.{RangeWithin, carried_out, IsCheckedArithmetic};

use crate::bitwise::{and, not, or, xor};
use crate::steps::{ByOp, OneOp, Step, Stop, TwoOp, Why};
use arbitrary_base::wrapping;
use arbitrary_calls::calls::FixedWidthCalls;
use arbitrary_calls::calls::products::ProductCalls;
use arbitrary_calls::calls::shifts::ShiftCalls;
use arbitrary_calls::calls::sums::SumCalls;
use arbitrary_calls::stored::Stored;
use arbitrary_traits::numbered::Numbered;

/// Whether each register number of the steps is below `n`.
pub fn well_formed(steps: &[Step], n: usize) -> bool
    ensures { IsTrue result ↔ All (StepWithin n) steps.now }
{
    steps.iter().all(|step| is_within(step, n))
}

/// Whether each register number of the step is below `n`.
fn is_within(step: &Step, n: usize) -> bool
    ensures { IsTrue result ↔ StepWithin n step.now }
{
    match step {
        Step::Two {
            to,
            left,
            right,
            ..
        } => *to < n && *left < n && *right < n,
        Step::One { to, src, .. } => *to < n && *src < n,
        Step::By { to, src, .. } => *to < n && *src < n,
    }
}

/// Whether the number is zero.
// Only the number 0 has no bit that is one.
fn is_zero<R: Numbered>(x: R) -> bool
    ensures { result ≡ int_eq (R.number x) (pos 0) }
{
    x.to_u128_bits() == 0
}

/// The quotient, wrapped, or a stop if the divisor is zero.
fn wrapping_quotient<R: ProductCalls>(x: R, y: R) -> Result<R, Why>
    ensures { let meant = two_meaning R.IS_SIGNED R.BITS TwoOp.WrappingDiv in MatchResult result
        (λ v. meant (R.number x) (R.number y) ≡ Ok (R.number v))
        (λ why. meant (R.number x) (R.number y) ≡ Err why) }
{
    if is_zero(y) {
        Err(Why::ZeroDivisor)
    } else {
        Ok(x.wrapping_div(y))
    }
}

/// The quotient, clamped, or a stop if the divisor is zero.
fn saturating_quotient<R: ProductCalls>(x: R, y: R) -> Result<R, Why>
    ensures { let meant = two_meaning R.IS_SIGNED R.BITS TwoOp.SaturatingDiv in MatchResult result
        (λ v. meant (R.number x) (R.number y) ≡ Ok (R.number v))
        (λ why. meant (R.number x) (R.number y) ≡ Err why) }
{
    if is_zero(y) {
        Err(Why::ZeroDivisor)
    } else {
        Ok(x.saturating_div(y))
    }
}

/// The result of an operation on two values.
#[tactic(auto, using(crate::proofs::StepLemmas::results))]
fn two<R: SumCalls + ProductCalls>(op: TwoOp, x: R, y: R) -> Result<R, Why>
    ensures { MatchResult result
        (λ v. two_meaning R.IS_SIGNED R.BITS op (R.number x) (R.number y) ≡ Ok (R.number v))
        (λ why. two_meaning R.IS_SIGNED R.BITS op (R.number x) (R.number y) ≡ Err why) }
{
    match op {
        TwoOp::WrappingAdd => Ok(x.wrapping_add(y)),
        TwoOp::WrappingSub => Ok(x.wrapping_sub(y)),
        TwoOp::WrappingMul => Ok(x.wrapping_mul(y)),
        TwoOp::WrappingDiv => wrapping_quotient(x, y),
        TwoOp::SaturatingAdd => Ok(x.saturating_add(y)),
        TwoOp::SaturatingSub => Ok(x.saturating_sub(y)),
        TwoOp::SaturatingMul => Ok(x.saturating_mul(y)),
        TwoOp::SaturatingDiv => saturating_quotient(x, y),
        TwoOp::CheckedAdd => x.checked_add(y).ok_or(Why::Refused),
        TwoOp::CheckedSub => x.checked_sub(y).ok_or(Why::Refused),
        TwoOp::CheckedMul => x.checked_mul(y).ok_or(Why::Refused),
        TwoOp::CheckedDiv => x.checked_div(y).ok_or(Why::Refused),
        TwoOp::And => Ok(and(x, y)),
        TwoOp::Or => Ok(or(x, y)),
        TwoOp::Xor => Ok(xor(x, y)),
    }
}

/// The negated number, wrapped.
fn negated<R: Stored>(x: R) -> R
    ensures { R.number result ≡ wrap R.IS_SIGNED R.BITS (pos 0 -ℤ R.number x) }
{
    R::from_storage(wrapping::neg(x.to_storage(), R::BITS))
}

/// The result of an operation on one value.
#[tactic(auto, using(crate::proofs::StepLemmas::results))]
fn one<R: ShiftCalls>(op: OneOp, x: R) -> R
    ensures { one_meaning R.IS_SIGNED R.BITS op (R.number x) ≡ Ok (R.number result) }
{
    match op {
        OneOp::Not => not(x),
        OneOp::ReverseBits => x.reverse_bits(),
        OneOp::WrappingNeg => negated(x),
    }
}

/// The result of an operation on one value and an amount.
#[tactic(auto, using(crate::proofs::StepLemmas::results))]
fn by<R: ShiftCalls + ProductCalls>(op: ByOp, x: R, amount: u32) -> Result<R, Why>
    ensures { MatchResult result
        (λ v. by_meaning R.IS_SIGNED R.BITS op (R.number x) amount ≡ Ok (R.number v))
        (λ why. by_meaning R.IS_SIGNED R.BITS op (R.number x) amount ≡ Err why) }
{
    match op {
        ByOp::WrappingShl => Ok(x.wrapping_shl(amount)),
        ByOp::WrappingShr => Ok(x.wrapping_shr(amount)),
        ByOp::CheckedShl => x.checked_shl(amount).ok_or(Why::Refused),
        ByOp::CheckedShr => x.checked_shr(amount).ok_or(Why::Refused),
        ByOp::RotateLeft => Ok(x.rotate_left(amount)),
        ByOp::RotateRight => Ok(x.rotate_right(amount)),
        ByOp::SaturatingPow => Ok(x.saturating_pow(amount)),
    }
}

/// The result of the step's operation on its sources.
#[tactic(auto, using(crate::proofs::StepLemmas::sources))]
fn step_result<R: FixedWidthCalls>(step: &Step, registers: &[R]) -> Result<R, Why>
    requires { StepWithin (length registers.now) step.now }
    ensures { MatchResult result
        (λ v. result_of R.IS_SIGNED R.BITS step.now (map R.number registers.now) ≡ Ok (R.number v))
        (λ why. result_of R.IS_SIGNED R.BITS step.now (map R.number registers.now) ≡ Err why) }
{
    match step {
        Step::Two {
            op,
            left,
            right,
            ..
        } => two(*op, registers[*left], registers[*right]),
        Step::One { op, src, .. } => Ok(one(*op, registers[*src])),
        Step::By {
            op,
            src,
            amount,
            ..
        } => by(*op, registers[*src], *amount),
    }
}

/// The register that the step writes.
fn target(step: &Step) -> usize
    ensures { result ≡ target_of step.now }
{
    match step {
        Step::Two { to, .. } => *to,
        Step::One { to, .. } => *to,
        Step::By { to, .. } => *to,
    }
}

/// Carries out one step. If it stops, nothing is written.
#[tactic(auto, using(crate::proofs::StepLemmas::writes))]
fn apply<R: FixedWidthCalls>(step: &Step, registers: &mut [R]) -> Result<(), Why>
    requires { StepWithin (length registers.old) step.now }
    ensures { let meant = meaning R.IS_SIGNED R.BITS step.now in MatchResult result
        (λ _. meant (map R.number registers.old) ≡ Ok (map R.number registers.new))
        (λ why. (meant (map R.number registers.old) ≡ Err why) × (registers.new ≡ registers.old)) }
{
    let value = step_result(step, registers)?;
    registers[target(step)] = value;
    Ok(())
}

/// Carries out the steps in order, up to the first that stops. That one writes nothing, and the
/// result has its place. Requires that each register number is below the number of registers, which
/// `well_formed` tests.
///
/// The numbers of the registers and the result are those of `RunOf`, a definition over integers and
/// lists of bits that does not mention storage. If the list has only checked sums, differences,
/// products and quotients, the steps that were carried out leave the same numbers, with no stop, at
/// every type whose range contains that of `R`.
#[tactic(auto, using(crate::proofs::RunLemmas::runs))]
pub fn run<R: FixedWidthCalls>(steps: &[Step], registers: &mut [R]) -> Result<(), Stop>
    requires { All (StepWithin (length registers.old)) steps.now }
    ensures registers { let before = map R.number registers.old in
        map R.number registers.new ≡ (RunOf R.IS_SIGNED R.BITS steps.now before).0 }
    ensures ending { let before = map R.number registers.old in
        result ≡ (RunOf R.IS_SIGNED R.BITS steps.now before).1 }
    ensures wider { let before = map R.number registers.old in
        let after = map R.number registers.new in
        All IsCheckedArithmetic steps.now → (s : Bool) (B : ℕ) → RangeWithin R.IS_SIGNED R.BITS s B
        → RunOf s B (carried_out result steps.now) before ≡ (after, Ok tt) }
{
    for (at, step) in steps.iter().enumerate() {
        if let Err(why) = apply(step, registers) {
            return Err(Stop { at, why });
        }
    }
    Ok(())
}

//! The steps of `run`. Each reads one or two registers and writes one.

/// An operation on two registers.
#[derive(Clone, Copy, Debug, PartialEq, Eq)]
pub enum TwoOp {
    WrappingAdd,
    WrappingSub,
    WrappingMul,
    /// Stops with `Why::ZeroDivisor` if the divisor is zero.
    WrappingDiv,
    SaturatingAdd,
    SaturatingSub,
    SaturatingMul,
    /// Stops with `Why::ZeroDivisor` if the divisor is zero.
    SaturatingDiv,
    /// A checked operation stops with `Why::Refused` if the exact result is out of range.
    CheckedAdd,
    CheckedSub,
    CheckedMul,
    /// Also stops with `Why::Refused` if the divisor is zero.
    CheckedDiv,
    And,
    Or,
    Xor,
}

/// An operation on one register.
#[derive(Clone, Copy, Debug, PartialEq, Eq)]
pub enum OneOp {
    Not,
    ReverseBits,
    /// The negated number, wrapped.
    WrappingNeg,
}

/// An operation on one register and an amount.
#[derive(Clone, Copy, Debug, PartialEq, Eq)]
pub enum ByOp {
    /// Wrapping shifts and rotations use the amount modulo the width.
    WrappingShl,
    WrappingShr,
    /// Checked shifts stop with `Why::Refused` if the amount is the width or more.
    CheckedShl,
    CheckedShr,
    RotateLeft,
    RotateRight,
    /// The amount is the exponent.
    SaturatingPow,
}

/// A step reads its sources, then writes the result of its operation into the register `to`.
/// Registers are numbered from 0, and may coincide.
#[derive(Clone, Copy, Debug, PartialEq, Eq)]
pub enum Step {
    Two {
        op: TwoOp,
        to: usize,
        left: usize,
        right: usize,
    },
    One {
        op: OneOp,
        to: usize,
        src: usize,
    },
    By {
        op: ByOp,
        to: usize,
        src: usize,
        amount: u32,
    },
}

/// Why a step stops.
#[derive(Clone, Copy, Debug, PartialEq, Eq)]
pub enum Why {
    /// A checked operation has no result.
    Refused,
    /// The divisor of an unchecked division is zero.
    ZeroDivisor,
}

/// Where a list of steps stopped, and why.
#[derive(Clone, Copy, Debug, PartialEq, Eq)]
pub struct Stop {
    /// The place of the step in the list, counted from 0.
    pub at: usize,
    pub why: Why,
}

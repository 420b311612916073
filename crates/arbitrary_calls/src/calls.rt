//! The calls of integers of fixed width, each written once for both types, with one trait for each topic: sums
//! and differences; products, quotients and powers; shifts and rotations; counts of bits. These traits require
//! little, so that a caller's proof loads little. `FixedWidth`, which has the operators and the laws of generic
//! code, requires them.

use crate::extraction::Extraction;
use crate::low_bits::LowBits;
use crate::stored::Stored;
use counts::CountCalls;
use products::ProductCalls;
use shifts::ShiftCalls;
use sums::SumCalls;

pub mod counts;
pub mod products;
pub mod shifts;
pub mod sums;

/// An integer of fixed width with all of its calls: `UInt` and `Int`.
pub trait FixedWidthCalls: SumCalls + ProductCalls + ShiftCalls + CountCalls + Extraction {}

impl<N: Stored + LowBits> FixedWidthCalls for N {}

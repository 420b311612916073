//! What generic code knows of the operators and calls of an integer of fixed width. `calls` has the calls.

ghost use Rattle.std.specs.Prelude.{◌≡◌, ◌≢◌, ◌+ℤ◌, ◌-ℤ◌, ◌*ℤ◌, pos, false};
ghost use Rattle.arbitrary_base.specs.Range.{InRange};
ghost use Rattle.arbitrary_core.proofs.GenericLaws.{BitCountLaws, BitLaws, BitSumLaws, BitwiseLaws, ComplementLaws, CountLaws, MovedBitLaws, MovementLaws, Operations, OrderLaws, ProductLaws, SumLaws, ValueLaws, WrappingLaws};

use crate::calls::FixedWidthCalls;
use arbitrary_traits::integer::Integer;

mod signed;
mod unsigned;

/// An integer with the calls of `FixedWidthCalls`, and with what generic code knows of these and of its operators.
// The check of a contract takes longer with each member of its bounds, so the laws of a topic are one record.
pub trait FixedWidth: Integer + FixedWidthCalls {
    // Each value is in range, so an operator that may overflow is allowed if the result is in range whenever the operands are. A sum and a
    // difference state that their operands are.
    ghost may_add: { (a b : Self) → let number = Self.number in
        let in_range = InRange Self.IS_SIGNED Self.BITS in
        (in_range (number a) → in_range (number b) → in_range (number a +ℤ number b))
        → Self.can_add a b };

    ghost exact_sum: { (a b r : Self) → let number = Self.number in Self.add_gives a b r
        → (number r ≡ number a +ℤ number b) × InRange Self.IS_SIGNED Self.BITS (number a)
        × InRange Self.IS_SIGNED Self.BITS (number b) };

    ghost may_sub: { (a b : Self) → let number = Self.number in
        let in_range = InRange Self.IS_SIGNED Self.BITS in
        (in_range (number a) → in_range (number b) → in_range (number a -ℤ number b))
        → Self.can_sub a b };

    ghost exact_difference: { (a b r : Self) → let number = Self.number in Self.sub_gives a b r
        → (number r ≡ number a -ℤ number b) × InRange Self.IS_SIGNED Self.BITS (number a)
        × InRange Self.IS_SIGNED Self.BITS (number b) };

    ghost may_mul: { (a b : Self) → let number = Self.number in
        let in_range = InRange Self.IS_SIGNED Self.BITS in
        (in_range (number a) → in_range (number b) → in_range (number a *ℤ number b))
        → Self.can_mul a b };

    ghost exact_product: { (a b r : Self) → Self.mul_gives a b r
        → Self.number r ≡ Self.number a *ℤ Self.number b };

    // Where the type has no sign a quotient is in range, and a divisor has only to be other than 0.
    ghost may_divide: { (a b : Self) → Self.IS_SIGNED ≡ false → Self.number b ≢ pos 0
        → Self.can_div a b };

    // The operations on values, and their laws by topic.
    ghost operations: { Operations Self Self.BITS };

    ghost bitwise_laws: { BitwiseLaws Self.IS_SIGNED Self.BITS Self.number Self.bitand_gives
        Self.bitor_gives Self.bitxor_gives Self.not_gives };

    ghost value_laws: { ValueLaws Self.IS_SIGNED Self.BITS Self.valid Self.number Self.eq
        Self.cmp operations };

    ghost bit_laws: { BitLaws Self.IS_SIGNED Self.BITS Self.valid Self.number Self.bitand_gives
        Self.bitor_gives Self.bitxor_gives Self.not_gives operations };

    ghost movement_laws: { MovementLaws Self.IS_SIGNED Self.BITS Self.valid Self.number
        operations };

    ghost bit_count_laws: { BitCountLaws Self.BITS operations };

    ghost wrapping_laws: { WrappingLaws Self.IS_SIGNED Self.BITS Self.valid Self.number
        Self.not_gives Self.sub_gives operations };

    // Groups of further laws, each closed until a file opens it by `unfolding`.
    ghost sum_laws: { SumLaws Self.valid operations.fits operations.sum_of
        operations.difference_of };

    ghost bit_sum_laws: { BitSumLaws Self.valid operations.value_of operations.and_of
        operations.or_of operations.xor_of operations.not_of operations.sum_of
        operations.difference_of };

    ghost complement_laws: { ComplementLaws Self.valid operations.not_of operations.sum_of
        operations.difference_of };

    ghost product_laws: { ProductLaws Self.BITS Self.valid operations.shl_of
        operations.difference_of operations.product_of };

    ghost moved_bit_laws: { MovedBitLaws Self.IS_SIGNED Self.BITS Self.valid operations.fits
        operations.value_of operations.shl_of operations.shr_of operations.and_of
        operations.not_of operations.rev_of };

    ghost count_laws: { CountLaws operations.and_of operations.or_of operations.ones_of };

    ghost order_laws: { OrderLaws Self.valid operations.fits operations.not_of Self.cmp };
}

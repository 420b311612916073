//! `&`, `|`, `^` and `!` as steps carry them out, in the storage of a number. The operators belong to `Integer`, whose
//! many laws would make each proof about steps slow.

ghost use Rattle.std.specs.Prelude.{◌≡◌};
ghost use Rattle.arbitrary_base.specs.Operation.{bitwise_and, bitwise_not, bitwise_or, bitwise_xor};

use arbitrary_base::bitwise;
use arbitrary_calls::stored::Stored;

/// The bits that are one in both numbers.
#[tactic(auto, unfolding(arbitrary_base::specs::Operation::bitwise_and))]
pub(crate) fn and<R: Stored>(x: R, y: R) -> R
    ensures { R.number result ≡ bitwise_and R.IS_SIGNED R.BITS (R.number x) (R.number y) }
{
    R::from_storage(bitwise::and(x.to_storage(), y.to_storage(), R::BITS))
}

/// The bits that are one in at least one of the numbers.
#[tactic(auto, unfolding(arbitrary_base::specs::Operation::bitwise_or))]
pub(crate) fn or<R: Stored>(x: R, y: R) -> R
    ensures { R.number result ≡ bitwise_or R.IS_SIGNED R.BITS (R.number x) (R.number y) }
{
    R::from_storage(bitwise::or(x.to_storage(), y.to_storage(), R::BITS))
}

/// The bits in which the numbers differ.
#[tactic(auto, unfolding(arbitrary_base::specs::Operation::bitwise_xor))]
pub(crate) fn xor<R: Stored>(x: R, y: R) -> R
    ensures { R.number result ≡ bitwise_xor R.IS_SIGNED R.BITS (R.number x) (R.number y) }
{
    R::from_storage(bitwise::xor(x.to_storage(), y.to_storage(), R::BITS))
}

/// The complement.
#[tactic(auto, unfolding(arbitrary_base::specs::Operation::bitwise_not))]
pub(crate) fn not<R: Stored>(x: R) -> R
    ensures { R.number result ≡ bitwise_not R.IS_SIGNED R.BITS (R.number x) }
{
    R::from_storage(bitwise::not(x.to_storage(), R::BITS))
}

//! Shifts at `bits` bits by an amount below `bits`, as functions over a storage. `shifting` of `arbitrary_core`
//! calls them for `<<` and `>>` of the types, and `calls::shifts` of `arbitrary_calls` has the calls that take any
//! amount.

ghost use Rattle.std.specs.Prelude.{◌≡◌, ◌≤◌, ◌<◌, ◌%◌};
ghost use Rattle.arbitrary_base.specs.Range.{InRange};
ghost use Rattle.arbitrary_base.specs.BitList.{bits as bit_list, val, fill, shl as shifted_left, shr as shifted_right};

use crate::storage::Storage;
use crate::truncation::truncated;

/// The amount modulo `bits`.
// Most amounts are below `bits`, and a division takes longer than a test.
pub fn places(amount: u32, bits: usize) -> usize
    requires { 1 ≤ bits }
    ensures value { result ≡ amount % bits }
    ensures within { result < bits }
{
    let amount = amount as usize;
    if amount < bits { amount } else { amount % bits }
}

/// The bits shifted left by `amount`, with zeros from the right. Bits that leave the high end are
/// lost.
pub fn shl<T: Storage>(x: T, amount: usize, bits: usize) -> T
    requires width { 1 ≤ bits }
    requires storage { bits ≤ T.WIDTH }
    requires within { amount < bits }
    ensures value { let list = bit_list bits (T.number x) in
        T.number result ≡ val T.SIGNED (shifted_left list amount) }
    ensures result_in_range { InRange T.SIGNED bits (T.number result) }
{
    truncated(x.shl_by(amount), bits)
}

/// The bits shifted right by `amount`, with copies of the sign from the left, or zeros for an
/// unsigned type. Bits that leave the low end are lost.
// At fewer bits all higher bits of the storage are copies of the sign, and the storage's shift brings them in.
pub fn shr<T: Storage>(x: T, amount: usize, bits: usize) -> T
    requires width { 1 ≤ bits }
    requires storage { bits ≤ T.WIDTH }
    requires within { amount < bits }
    ensures value { let list = bit_list bits (T.number x) in
        T.number result ≡ val T.SIGNED (shifted_right list amount (fill T.SIGNED list)) }
    ensures result_in_range { InRange T.SIGNED bits (T.number result) }
{
    truncated(x, bits).shr_by(amount)
}

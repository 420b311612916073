//! Some bits of a number as a number, over storages. `extraction` of `arbitrary_calls` has the calls of the types.

ghost use Rattle.std.specs.Prelude.{◌≡◌, ◌≤◌, ◌+◌, take, drop};
ghost use Rattle.arbitrary_base.specs.Range.{InRange};
ghost use Rattle.arbitrary_base.specs.BitList.{bits as bit_list, val};

use crate::storage::Storage;
use crate::truncation::from_low_bits;

/// The number whose bits are `bits` bits of `source`, from bit `start_bit` on. The source must have
/// all of them.
pub fn extract<S: Storage, T: Storage>(source: S, start_bit: usize, bits: usize) -> T
    requires width { 1 ≤ bits }
    requires storage { bits ≤ T.WIDTH }
    requires within { start_bit + bits ≤ S.WIDTH }
    ensures value { let list = bit_list S.WIDTH (S.number source) in
        T.number result ≡ val T.SIGNED (take bits (drop start_bit list)) }
    ensures result_in_range { InRange T.SIGNED bits (T.number result) }
{
    // The source shifts at its own width, not at 128 bits: only bits above the wanted ones can differ, and these are masked.
    from_low_bits(source.shr_by(start_bit).pattern(), bits)
}

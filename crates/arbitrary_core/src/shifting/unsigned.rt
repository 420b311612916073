//! `<<` and `>>` of `UInt`, by an amount from 0 to `BITS - 1` of any primitive integer type.

ghost use Rattle.std.specs.Prelude.{◌≡◌, ◌*◌, ◌%◌, ◌^◌, ◌*ℤ◌, int_div, ◌≤ℤ◌, ◌<ℤ◌, pos, unsigned_abs};
ghost use Rattle.arbitrary_base.specs.Range.{InRange};
ghost use Rattle.arbitrary_base.specs.Residue.{Congruent};
ghost use Rattle.arbitrary_base.specs.Operation.{shifted_left, shifted_right};
ghost use Rattle.arbitrary_base.specs.BitList.{bits, val, fill, shl as moved_left, shr as moved_right};

use crate::unsigned::UInt;
use arbitrary_base::shifts;
use arbitrary_base::storage::UnsignedStorage;
use arbitrary_traits::shift_amount::ShiftAmount;
use std::ops::{Shl, ShlAssign, Shr, ShrAssign};

impl<T: UnsignedStorage, const BITS: usize, S: ShiftAmount> Shl<S> for UInt<T, BITS> {
    type Output = UInt<T, BITS>;

    ghost can_shl = { λ a k. (pos 0 ≤ℤ S.amount k) × (S.amount k <ℤ pos BITS) };

    ghost shl_gives = { λ a k r. let places = unsigned_abs (S.amount k) in
        r ≡ val T.SIGNED (moved_left (bits BITS a) places) };

    fn shl(self, amount: S) -> UInt<T, BITS>
        requires { (pos 0 ≤ℤ S.amount amount) × (S.amount amount <ℤ pos BITS) }
        ensures operation { let places = unsigned_abs (S.amount amount) in
            result ≡ shifted_left T.SIGNED BITS self places }
        ensures bits { let places = unsigned_abs (S.amount amount) in
            result ≡ val T.SIGNED (moved_left (bits BITS self) places) }
        ensures plain { let places = unsigned_abs (S.amount amount) in
            result ≡ pos (unsigned_abs self * 2 ^ places % 2 ^ BITS) }
        ensures congruent { let places = unsigned_abs (S.amount amount) in
            Congruent BITS result (self *ℤ pos (2 ^ places)) }
        ensures self_in_range { InRange T.SIGNED BITS self }
    {
        UInt::new(shifts::shl(self.value(), amount.to_amount(), BITS))
    }
}

impl<T: UnsignedStorage, const BITS: usize, S: ShiftAmount> ShlAssign<S> for UInt<T, BITS> {
    ghost can_shl_assign = { λ a k. (pos 0 ≤ℤ S.amount k) × (S.amount k <ℤ pos BITS) };

    ghost shl_assign_gives = { λ a k r. let places = unsigned_abs (S.amount k) in
        r ≡ val T.SIGNED (moved_left (bits BITS a) places) };

    fn shl_assign(&mut self, amount: S)
        requires { (pos 0 ≤ℤ S.amount amount) × (S.amount amount <ℤ pos BITS) }
        ensures operation { let places = unsigned_abs (S.amount amount) in
            self.new ≡ shifted_left T.SIGNED BITS self.old places }
        ensures bits { let places = unsigned_abs (S.amount amount) in
            self.new ≡ val T.SIGNED (moved_left (bits BITS self.old) places) }
        ensures plain { let places = unsigned_abs (S.amount amount) in
            self.new ≡ pos (unsigned_abs self.old * 2 ^ places % 2 ^ BITS) }
        ensures congruent { let places = unsigned_abs (S.amount amount) in
            Congruent BITS self.new (self.old *ℤ pos (2 ^ places)) }
        ensures result_in_range { InRange T.SIGNED BITS self.new }
        ensures self_in_range { InRange T.SIGNED BITS self.old }
    {
        *self = *self << amount;
    }
}

impl<T: UnsignedStorage, const BITS: usize, S: ShiftAmount> Shr<S> for UInt<T, BITS> {
    type Output = UInt<T, BITS>;

    ghost can_shr = { λ a k. (pos 0 ≤ℤ S.amount k) × (S.amount k <ℤ pos BITS) };

    ghost shr_gives = { λ a k r. let places = unsigned_abs (S.amount k) in
        let list = bits BITS a in
        r ≡ val T.SIGNED (moved_right list places (fill T.SIGNED list)) };

    fn shr(self, amount: S) -> UInt<T, BITS>
        requires { (pos 0 ≤ℤ S.amount amount) × (S.amount amount <ℤ pos BITS) }
        ensures operation { let places = unsigned_abs (S.amount amount) in
            result ≡ shifted_right T.SIGNED BITS self places }
        ensures bits { let places = unsigned_abs (S.amount amount) in
            let list = bits BITS self in
            result ≡ val T.SIGNED (moved_right list places (fill T.SIGNED list)) }
        ensures quotient { result ≡ int_div self (pos (2 ^ unsigned_abs (S.amount amount))) }
        ensures self_in_range { InRange T.SIGNED BITS self }
    {
        UInt::new(shifts::shr(self.value(), amount.to_amount(), BITS))
    }
}

impl<T: UnsignedStorage, const BITS: usize, S: ShiftAmount> ShrAssign<S> for UInt<T, BITS> {
    ghost can_shr_assign = { λ a k. (pos 0 ≤ℤ S.amount k) × (S.amount k <ℤ pos BITS) };

    ghost shr_assign_gives = { λ a k r. let places = unsigned_abs (S.amount k) in
        let list = bits BITS a in
        r ≡ val T.SIGNED (moved_right list places (fill T.SIGNED list)) };

    fn shr_assign(&mut self, amount: S)
        requires { (pos 0 ≤ℤ S.amount amount) × (S.amount amount <ℤ pos BITS) }
        ensures operation { let places = unsigned_abs (S.amount amount) in
            self.new ≡ shifted_right T.SIGNED BITS self.old places }
        ensures bits { let places = unsigned_abs (S.amount amount) in
            let list = bits BITS self.old in
            self.new ≡ val T.SIGNED (moved_right list places (fill T.SIGNED list)) }
        ensures quotient { self.new ≡ int_div self.old (pos (2 ^ unsigned_abs (S.amount amount))) }
        ensures self_in_range { InRange T.SIGNED BITS self.old }
    {
        *self = *self >> amount;
    }
}

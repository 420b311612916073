//! `<<` and `>>` of `Int`, by an amount from 0 to `BITS - 1` of any primitive integer type.

ghost use Rattle.std.specs.Prelude.{◌≡◌, ◌-◌, ◌^◌, ◌+ℤ◌, ◌*ℤ◌, ◌≤ℤ◌, ◌<ℤ◌, pos, unsigned_abs};
ghost use Rattle.arbitrary_base.specs.Range.{InRange};
ghost use Rattle.arbitrary_base.specs.Residue.{Congruent};
ghost use Rattle.arbitrary_base.specs.Operation.{shifted_left, shifted_right};
ghost use Rattle.arbitrary_base.specs.BitList.{bits, val, fill, shl as moved_left, shr as moved_right};

use crate::signed::Int;
use arbitrary_base::shifts;
use arbitrary_base::storage::{SignedStorage, UnsignedOf};
use arbitrary_traits::shift_amount::ShiftAmount;
use std::ops::{Shl, ShlAssign, Shr, ShrAssign};

impl<T: SignedStorage, const BITS: usize, U: UnsignedOf<T>, S: ShiftAmount> Shl<S>
    for Int<T, BITS, U> {
    type Output = Int<T, BITS, U>;

    ghost can_shl = { λ a k. (pos 0 ≤ℤ S.amount k) × (S.amount k <ℤ pos BITS) };

    ghost shl_gives = { λ a k r. let places = unsigned_abs (S.amount k) in
        r ≡ val T.SIGNED (moved_left (bits BITS a) places) };

    fn shl(self, amount: S) -> Int<T, BITS, U>
        requires { (pos 0 ≤ℤ S.amount amount) × (S.amount amount <ℤ pos BITS) }
        ensures operation { let places = unsigned_abs (S.amount amount) in
            result ≡ shifted_left T.SIGNED BITS self places }
        ensures bits { let places = unsigned_abs (S.amount amount) in
            result ≡ val T.SIGNED (moved_left (bits BITS self) places) }
        ensures congruent { let places = unsigned_abs (S.amount amount) in
            Congruent BITS result (self *ℤ pos (2 ^ places)) }
        ensures none { unsigned_abs (S.amount amount) ≡ 0 → result ≡ self }
        ensures self_in_range { InRange T.SIGNED BITS self }
    {
        Int::<T, BITS, U>::from_bits(shifts::shl(self.to_bits(), amount.to_amount(), BITS))
    }
}

impl<T: SignedStorage, const BITS: usize, U: UnsignedOf<T>, S: ShiftAmount> ShlAssign<S>
    for Int<T, BITS, U> {
    ghost can_shl_assign = { λ a k. (pos 0 ≤ℤ S.amount k) × (S.amount k <ℤ pos BITS) };

    ghost shl_assign_gives = { λ a k r. let places = unsigned_abs (S.amount k) in
        r ≡ val T.SIGNED (moved_left (bits BITS a) places) };

    fn shl_assign(&mut self, amount: S)
        requires { (pos 0 ≤ℤ S.amount amount) × (S.amount amount <ℤ pos BITS) }
        ensures operation { let places = unsigned_abs (S.amount amount) in
            self.new ≡ shifted_left T.SIGNED BITS self.old places }
        ensures bits { let places = unsigned_abs (S.amount amount) in
            self.new ≡ val T.SIGNED (moved_left (bits BITS self.old) places) }
        ensures congruent { let places = unsigned_abs (S.amount amount) in
            Congruent BITS self.new (self.old *ℤ pos (2 ^ places)) }
        ensures none { unsigned_abs (S.amount amount) ≡ 0 → self.new ≡ self.old }
        ensures result_in_range { InRange T.SIGNED BITS self.new }
        ensures self_in_range { InRange T.SIGNED BITS self.old }
    {
        *self = *self << amount;
    }
}

impl<T: SignedStorage, const BITS: usize, U: UnsignedOf<T>, S: ShiftAmount> Shr<S>
    for Int<T, BITS, U> {
    type Output = Int<T, BITS, U>;

    ghost can_shr = { λ a k. (pos 0 ≤ℤ S.amount k) × (S.amount k <ℤ pos BITS) };

    ghost shr_gives = { λ a k r. let places = unsigned_abs (S.amount k) in
        let list = bits BITS a in
        r ≡ val T.SIGNED (moved_right list places (fill T.SIGNED list)) };

    fn shr(self, amount: S) -> Int<T, BITS, U>
        requires { (pos 0 ≤ℤ S.amount amount) × (S.amount amount <ℤ pos BITS) }
        ensures operation { let places = unsigned_abs (S.amount amount) in
            result ≡ shifted_right T.SIGNED BITS self places }
        ensures bits { let places = unsigned_abs (S.amount amount) in
            let list = bits BITS self in
            result ≡ val T.SIGNED (moved_right list places (fill T.SIGNED list)) }
        ensures low { (result *ℤ pos (2 ^ unsigned_abs (S.amount amount))) ≤ℤ self }
        ensures high { let places = unsigned_abs (S.amount amount) in
            let power = pos (2 ^ places) in
            self <ℤ (result *ℤ power +ℤ power) }
        ensures result_in_range { InRange T.SIGNED (BITS - unsigned_abs (S.amount amount)) result }
        ensures self_in_range { InRange T.SIGNED BITS self }
    {
        Int::<T, BITS, U>::new(shifts::shr(self.value(), amount.to_amount(), BITS))
    }
}

impl<T: SignedStorage, const BITS: usize, U: UnsignedOf<T>, S: ShiftAmount> ShrAssign<S>
    for Int<T, BITS, U> {
    ghost can_shr_assign = { λ a k. (pos 0 ≤ℤ S.amount k) × (S.amount k <ℤ pos BITS) };

    ghost shr_assign_gives = { λ a k r. let places = unsigned_abs (S.amount k) in
        let list = bits BITS a in
        r ≡ val T.SIGNED (moved_right list places (fill T.SIGNED list)) };

    fn shr_assign(&mut self, amount: S)
        requires { (pos 0 ≤ℤ S.amount amount) × (S.amount amount <ℤ pos BITS) }
        ensures operation { let places = unsigned_abs (S.amount amount) in
            self.new ≡ shifted_right T.SIGNED BITS self.old places }
        ensures bits { let places = unsigned_abs (S.amount amount) in
            let list = bits BITS self.old in
            self.new ≡ val T.SIGNED (moved_right list places (fill T.SIGNED list)) }
        ensures low { (self.new *ℤ pos (2 ^ unsigned_abs (S.amount amount))) ≤ℤ self.old }
        ensures high { let places = unsigned_abs (S.amount amount) in
            let power = pos (2 ^ places) in
            self.old <ℤ (self.new *ℤ power +ℤ power) }
        ensures result_in_range { InRange T.SIGNED
            (BITS - unsigned_abs (S.amount amount)) self.new }
        ensures self_in_range { InRange T.SIGNED BITS self.old }
    {
        *self = *self >> amount;
    }
}

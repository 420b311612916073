//! Text of `Int` in the bases 2, 8 and 16: the number if it is at least 0, otherwise the two's complement of the
//! storage.

ghost use Rattle.std.specs.Prelude.{◌≤◌, ◌≤ℤ◌, pos, true, false, Some, None, cond, nat_le, unsigned_abs};
ghost use Rattle.std.specs.Fmt.{WritesOnOk, digits};
ghost use Rattle.arbitrary_base.specs.Residue.{residue};

use crate::radix;
use crate::signed::Int;
use arbitrary_base::storage::{SignedStorage, UnsignedOf};
use std::fmt;

impl<T: SignedStorage, const BITS: usize, U: UnsignedOf<T>> fmt::LowerHex for Int<T, BITS, U> {
    fn fmt<W: fmt::Write>(&self, f: &mut fmt::Formatter<W>) -> fmt::Result
        ensures pattern { let text = digits 16 false (residue T.WIDTH self.now) in
            T.WIDTH ≤ 64 → WritesOnOk W.write_str_gives f.old result text f.new }
        ensures natural { let text = digits 16 false (unsigned_abs self.now) in
            T.WIDTH ≤ 64 → pos 0 ≤ℤ self.now
            → WritesOnOk W.write_str_gives f.old result text f.new }
    {
        radix::lower_hex(self.value(), f)
    }
}

impl<T: SignedStorage, const BITS: usize, U: UnsignedOf<T>> fmt::UpperHex for Int<T, BITS, U> {
    fn fmt<W: fmt::Write>(&self, f: &mut fmt::Formatter<W>) -> fmt::Result
        ensures pattern { let text = digits 16 true (residue T.WIDTH self.now) in
            T.WIDTH ≤ 64 → WritesOnOk W.write_str_gives f.old result text f.new }
        ensures natural { let text = digits 16 true (unsigned_abs self.now) in
            T.WIDTH ≤ 64 → pos 0 ≤ℤ self.now
            → WritesOnOk W.write_str_gives f.old result text f.new }
    {
        radix::upper_hex(self.value(), f)
    }
}

impl<T: SignedStorage, const BITS: usize, U: UnsignedOf<T>> fmt::Octal for Int<T, BITS, U> {
    fn fmt<W: fmt::Write>(&self, f: &mut fmt::Formatter<W>) -> fmt::Result
        ensures pattern { let text = digits 8 false (residue T.WIDTH self.now) in
            T.WIDTH ≤ 64 → WritesOnOk W.write_str_gives f.old result text f.new }
        ensures natural { let text = digits 8 false (unsigned_abs self.now) in
            T.WIDTH ≤ 64 → pos 0 ≤ℤ self.now
            → WritesOnOk W.write_str_gives f.old result text f.new }
    {
        radix::octal(self.value(), f)
    }
}

impl<T: SignedStorage, const BITS: usize, U: UnsignedOf<T>> fmt::Binary for Int<T, BITS, U> {
    fn fmt<W: fmt::Write>(&self, f: &mut fmt::Formatter<W>) -> fmt::Result
        ensures pattern { let text = digits 2 false (residue T.WIDTH self.now) in
            T.WIDTH ≤ 64 → WritesOnOk W.write_str_gives f.old result text f.new }
        ensures natural { let text = digits 2 false (unsigned_abs self.now) in
            T.WIDTH ≤ 64 → pos 0 ≤ℤ self.now
            → WritesOnOk W.write_str_gives f.old result text f.new }
    {
        radix::binary(self.value(), f)
    }
}

// Format strings use this for `{:x}`, `{:X}`, `{:o}` and `{:b}`.
impl<T: SignedStorage, const BITS: usize, U: UnsignedOf<T>> fmt::HasDigits for Int<T, BITS, U> {
    ghost word = { λ x. cond (nat_le T.WIDTH 64) (Some (residue T.WIDTH x)) None };

    fn bits(self) -> (u64, u64) {
        radix::words(self.value())
    }
}

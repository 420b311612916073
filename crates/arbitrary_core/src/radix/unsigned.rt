//! Text of `UInt` in the bases 2, 8 and 16: the number.

ghost use Rattle.std.specs.Prelude.{◌≤◌, true, false, Some, None, cond, nat_le, unsigned_abs};
ghost use Rattle.std.specs.Fmt.{WritesOnOk, digits};
ghost use Rattle.arbitrary_base.specs.Residue.{residue};

use crate::radix;
use crate::unsigned::UInt;
use arbitrary_base::storage::UnsignedStorage;
use std::fmt;

impl<T: UnsignedStorage, const BITS: usize> fmt::LowerHex for UInt<T, BITS> {
    fn fmt<W: fmt::Write>(&self, f: &mut fmt::Formatter<W>) -> fmt::Result
        ensures pattern { let text = digits 16 false (residue T.WIDTH self.now) in
            T.WIDTH ≤ 64 → WritesOnOk W.write_str_gives f.old result text f.new }
        ensures natural { let text = digits 16 false (unsigned_abs self.now) in
            T.WIDTH ≤ 64 → WritesOnOk W.write_str_gives f.old result text f.new }
    {
        radix::lower_hex(self.value(), f)
    }
}

impl<T: UnsignedStorage, const BITS: usize> fmt::UpperHex for UInt<T, BITS> {
    fn fmt<W: fmt::Write>(&self, f: &mut fmt::Formatter<W>) -> fmt::Result
        ensures pattern { let text = digits 16 true (residue T.WIDTH self.now) in
            T.WIDTH ≤ 64 → WritesOnOk W.write_str_gives f.old result text f.new }
        ensures natural { let text = digits 16 true (unsigned_abs self.now) in
            T.WIDTH ≤ 64 → WritesOnOk W.write_str_gives f.old result text f.new }
    {
        radix::upper_hex(self.value(), f)
    }
}

impl<T: UnsignedStorage, const BITS: usize> fmt::Octal for UInt<T, BITS> {
    fn fmt<W: fmt::Write>(&self, f: &mut fmt::Formatter<W>) -> fmt::Result
        ensures pattern { let text = digits 8 false (residue T.WIDTH self.now) in
            T.WIDTH ≤ 64 → WritesOnOk W.write_str_gives f.old result text f.new }
        ensures natural { let text = digits 8 false (unsigned_abs self.now) in
            T.WIDTH ≤ 64 → WritesOnOk W.write_str_gives f.old result text f.new }
    {
        radix::octal(self.value(), f)
    }
}

impl<T: UnsignedStorage, const BITS: usize> fmt::Binary for UInt<T, BITS> {
    fn fmt<W: fmt::Write>(&self, f: &mut fmt::Formatter<W>) -> fmt::Result
        ensures pattern { let text = digits 2 false (residue T.WIDTH self.now) in
            T.WIDTH ≤ 64 → WritesOnOk W.write_str_gives f.old result text f.new }
        ensures natural { let text = digits 2 false (unsigned_abs self.now) in
            T.WIDTH ≤ 64 → WritesOnOk W.write_str_gives f.old result text f.new }
    {
        radix::binary(self.value(), f)
    }
}

// Format strings use this for `{:x}`, `{:X}`, `{:o}` and `{:b}`.
impl<T: UnsignedStorage, const BITS: usize> fmt::HasDigits for UInt<T, BITS> {
    ghost word = { λ x. cond (nat_le T.WIDTH 64) (Some (unsigned_abs x)) None };

    #[tactic(auto, using(crate::proofs::Word::naturals))]
    fn bits(self) -> (u64, u64) {
        radix::words(self.value())
    }
}

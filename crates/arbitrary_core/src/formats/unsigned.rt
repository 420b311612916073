//! The decimal text of `UInt`, which is that of the number.

ghost use Rattle.std.specs.Prelude.{Some};
ghost use Rattle.std.specs.Fmt.{signed_decimal};

use crate::unsigned::UInt;
use arbitrary_base::storage::UnsignedStorage;
use arbitrary_traits::numbered::Numbered;
use std::fmt;

impl<T: UnsignedStorage, const BITS: usize> fmt::Display for UInt<T, BITS> {
    ghost output = { λ x. Some (signed_decimal x) };

    fn fmt<W: fmt::Write>(&self, f: &mut fmt::Formatter<W>) -> fmt::Result {
        fmt::Display::fmt(&self.to_u128_bits(), f)
    }
}

impl<T: UnsignedStorage, const BITS: usize> fmt::Debug for UInt<T, BITS> {
    ghost debug_output = { λ x. Some (signed_decimal x) };

    fn fmt<W: fmt::Write>(&self, f: &mut fmt::Formatter<W>) -> fmt::Result {
        fmt::Display::fmt(self, f)
    }
}

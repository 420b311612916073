//! The decimal text of `Int`, which is that of the number.

ghost use Rattle.std.specs.Prelude.{Some};
ghost use Rattle.std.specs.Fmt.{signed_decimal};

use crate::signed::Int;
use arbitrary_base::storage::{SignedStorage, UnsignedOf};
use arbitrary_traits::numbered::Numbered;
use std::fmt;

impl<T: SignedStorage, const BITS: usize, U: UnsignedOf<T>> fmt::Display for Int<T, BITS, U> {
    ghost output = { λ x. Some (signed_decimal x) };

    fn fmt<W: fmt::Write>(&self, f: &mut fmt::Formatter<W>) -> fmt::Result {
        fmt::Display::fmt(&self.as_i128(), f)
    }
}

impl<T: SignedStorage, const BITS: usize, U: UnsignedOf<T>> fmt::Debug for Int<T, BITS, U> {
    ghost debug_output = { λ x. Some (signed_decimal x) };

    fn fmt<W: fmt::Write>(&self, f: &mut fmt::Formatter<W>) -> fmt::Result {
        fmt::Display::fmt(self, f)
    }
}

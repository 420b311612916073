//! Equality and order of `UInt`: those of the number.

ghost use Rattle.std.specs.Ordering.{int_cmp, int_eq, as_partial_cmp};
ghost use Rattle.std.specs.Cmp.{partial_order_from_own_ties};
ghost use Rattle.std.specs.Cmp.Rules.{comparing};
ghost use Rattle.std.proofs.Common.{rules};

use crate::unsigned::UInt;
use arbitrary_base::storage::UnsignedStorage;
use std::cmp::Ordering;

impl<T: UnsignedStorage, const BITS: usize> PartialEq for UInt<T, BITS> {
    ghost eq = { int_eq };

    ghost laws = { Prim.search (comparing, rules) };

    fn eq(&self, other: &Self) -> bool {
        self.value().equal(&other.value())
    }
}

impl<T: UnsignedStorage, const BITS: usize> Eq for UInt<T, BITS> {
    ghost laws = { Prim.search (comparing, rules) };
}

impl<T: UnsignedStorage, const BITS: usize> PartialOrd for UInt<T, BITS> {
    ghost partial_cmp = { as_partial_cmp int_cmp };

    ghost laws = { partial_order_from_own_ties (Prim.search (comparing, rules))
        (Prim.search (comparing, rules)) };

    fn partial_cmp(&self, other: &Self) -> Option<Ordering> {
        Some(self.cmp(other))
    }
}

impl<T: UnsignedStorage, const BITS: usize> Ord for UInt<T, BITS> {
    ghost cmp = { int_cmp };

    ghost total = { Prim.search (comparing, rules) };

    ghost matches_partial_cmp = { Prim.search (comparing, rules) };

    ghost matches_eq = { Prim.search (comparing, rules) };

    fn cmp(&self, other: &Self) -> Ordering {
        self.value().compare(&other.value())
    }
}

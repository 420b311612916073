//! `Int` as an integer of fixed width: the laws. `unsigned` has the same for `UInt`.

ghost use Rattle.arbitrary_core.proofs.UnsignedQuotient.{quotient-in_range};
ghost use Rattle.arbitrary_core.proofs.GenericLawsHold.{bit-hold, bit_count-hold, bit_sums-hold, bitwise-hold, complements-hold, counts-hold, moved_bits-hold, movement-hold, operations, orders-hold, products-hold, sums-hold, value-hold, wrapping-hold};

use crate::fixed_width::FixedWidth;
use arbitrary_base::storage::{SignedStorage, UnsignedOf};
use arbitrary_core::signed::Int;

impl<T: SignedStorage, const BITS: usize, U: UnsignedOf<T>> FixedWidth for Int<T, BITS, U> {
    ghost may_add = { λ a b h. h };

    ghost exact_sum = { λ a b r h. h };

    ghost may_sub = { λ a b h. h };

    ghost exact_difference = { λ a b r h. h };

    ghost may_mul = { λ a b h x y _. h x y };

    ghost exact_product = { λ a b r h. h.0 };

    ghost may_divide = { λ a b u n. (n, λ f g. quotient-in_range _ _ _ _ u f g) };

    ghost operations = { operations T.SIGNED BITS };

    ghost bitwise_laws = { bitwise-hold T.SIGNED BITS };

    ghost value_laws = { value-hold T.SIGNED BITS _ (λ v. v.0) };

    ghost bit_laws = { bit-hold T.SIGNED BITS _ (λ v. v.0) };

    ghost movement_laws = { movement-hold T.SIGNED BITS _ (λ v. v.0) };

    ghost bit_count_laws = { bit_count-hold T.SIGNED BITS };

    ghost wrapping_laws = { wrapping-hold T.SIGNED BITS _ (λ v. v.0) };

    ghost sum_laws = { sums-hold T.SIGNED BITS _ (λ v. v.0) };

    ghost bit_sum_laws = { bit_sums-hold T.SIGNED BITS _ (λ v. v.0) };

    ghost complement_laws = { complements-hold T.SIGNED BITS _ (λ v. v.0) };

    ghost product_laws = { products-hold T.SIGNED BITS _ (λ v. v.0) };

    ghost moved_bit_laws = { moved_bits-hold T.SIGNED BITS _ (λ v. v.0) };

    ghost count_laws = { counts-hold T.SIGNED BITS };

    ghost order_laws = { orders-hold T.SIGNED BITS _ (λ v. v.0) };
}

//! `try_sum` and `try_product`: sums and products of many values, from the left, which return `None` if a partial
//! result is out of range. `totals` of `arbitrary_core` has std's `Sum` and `Product`, which require that it is in
//! range.

ghost use Rattle.std.specs.Prelude.{◌+ℤ◌, ◌*ℤ◌, pos, SomeIff, option_map};
ghost use Rattle.arbitrary_base.specs.Range.{InRange};
ghost use Rattle.std.specs.Iterator.{IsFinite};
ghost use Rattle.arbitrary_int.specs.Totals.{TotalOrNone};

use arbitrary_calls::calls::products::ProductCalls;
use arbitrary_calls::calls::sums::SumCalls;
use arbitrary_traits::numbered::Numbered;

/// The sum of the items, from 0 and from the left, or `None` exactly if a partial sum is out of
/// range, even if later items would bring it back. Requires a valid width, and an iterator that
/// ends.
pub fn try_sum<V: SumCalls, I: Iterator<Item = V> + Drop>(iter: I) -> Option<V>
    requires width { V.valid }
    requires can { I.can_next iter }
    requires ends { IsFinite (I.remaining iter) }
    ensures { let number = V.number in
        TotalOrNone V.IS_SIGNED V.BITS (λ a b. a +ℤ b) (pos 0) I.next_gives number iter result }
{
    let mut total = V::masked_new(0u8);
    for item in iter {
        match total.checked_add(item) {
            Some(sum) => total = sum,
            None => return None,
        }
    }
    Some(total)
}

/// The number 1, or `None` for the signed type of one bit, which has no 1.
#[tactic(auto, using(crate::proofs::TotalSteps::one_laws))]
fn one<V: Numbered>() -> Option<V>
    requires { V.valid }
    ensures { SomeIff (option_map V.number result) (InRange V.IS_SIGNED V.BITS (pos 1)) (pos 1) }
{
    let signed = V::IS_SIGNED;
    if !signed {
        return Some(V::masked_new(1u8));
    }
    let bits = V::BITS;
    if bits == 1 {
        return None;
    }
    Some(V::masked_new(1u8))
}

/// The product of the items, from 1 and from the left, or `None` exactly if 1 or a partial product
/// is out of range. The signed type of one bit has no 1. Requires a valid width, and an iterator
/// that ends.
pub fn try_product<V: ProductCalls, I: Iterator<Item = V> + Drop>(iter: I) -> Option<V>
    requires width { V.valid }
    requires can { I.can_next iter }
    requires ends { IsFinite (I.remaining iter) }
    ensures { let number = V.number in
        TotalOrNone V.IS_SIGNED V.BITS (λ a b. a *ℤ b) (pos 1) I.next_gives number iter result }
{
    let mut total = one::<V>()?;
    for item in iter {
        match total.checked_mul(item) {
            Some(product) => total = product,
            None => return None,
        }
    }
    Some(total)
}

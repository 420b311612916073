//! Exact sums and products of many values by std's `Sum` and `Product`, which require that each partial result is
//! in range. `unsigned` and `signed` have the impls, and this file has the loops. `totals` of `arbitrary_int` has
//! `try_sum` and `try_product`.

ghost use Rattle.std.specs.Prelude.{◌≡◌, List};
ghost use Rattle.std.specs.Iterator.{Drains, HoldsAlong, IsFinite};
ghost use Rattle.std.specs.List.{fold};

pub mod signed;
pub mod unsigned;

/// A type whose values the loops add and multiply.
pub(crate) trait Total: Sized {
    ghost sum: { Self → Self → Self };

    ghost product: { Self → Self → Self };

    ghost is_number: { Self → Type 0 };

    fn plus(self, item: Self) -> Self
        requires { is_number (sum self item) }
        ensures { result ≡ sum self item };

    fn times(self, item: Self) -> Self
        requires { is_number (product self item) }
        ensures { result ≡ product self item };
}

/// The sum of the first number and the items, from the left.
pub(crate) fn sum_from<S: Total, I: Iterator<Item = S>>(first: S, iter: I) -> S
    requires can { I.can_next iter }
    requires ends { IsFinite (I.remaining iter) }
    requires fits { HoldsAlong I.next_gives iter (λ items. S.is_number (fold S.sum first items)) }
    ensures { (items : List S) × Drains I.next_gives iter items
        × (result ≡ fold S.sum first items) }
{
    let mut total = first;
    for item in iter {
        total = total.plus(item);
    }
    total
}

/// The product of the first number and the items, from the left.
pub(crate) fn product_from<S: Total, I: Iterator<Item = S>>(first: S, iter: I) -> S
    requires can { I.can_next iter }
    requires ends { IsFinite (I.remaining iter) }
    requires fits { HoldsAlong I.next_gives iter
        (λ items. S.is_number (fold S.product first items)) }
    ensures { (items : List S) × Drains I.next_gives iter items
        × (result ≡ fold S.product first items) }
{
    let mut total = first;
    for item in iter {
        total = total.times(item);
    }
    total
}

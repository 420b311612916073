//! Facts about sums and products of many values, by std's `sum` and `product`.

ghost use Rattle.std.specs.Prelude.{◌≡◌, ◌<◌, ◌+ℤ◌, pos, unsigned_abs};
ghost use Rattle.std.specs.List.{sum_by};

use arbitrary_int::prelude::*;

pub fn total(list: &[u12]) -> u12
    requires { sum_by unsigned_abs list.now < 4096 }
    ensures { result ≡ pos (sum_by unsigned_abs list.now) }
{
    list.iter().copied().sum()
}

pub fn wide_total(list: &[u4]) -> u12
    requires { sum_by unsigned_abs list.now < 4096 }
    ensures { result ≡ pos (sum_by unsigned_abs list.now) }
{
    list.iter().map(|x| u12::from_(*x)).sum()
}

pub fn total_of_some(list: &[u12]) -> u12
    requires { sum_by unsigned_abs list.now < 4096 }
{
    list.iter().copied().filter(|x| x.count_ones() == 3).sum()
}

pub fn total_of_three(a: u4, b: u4, c: u4) -> u12
    ensures { result ≡ a +ℤ b +ℤ c }
{
    [u12::from_(a), u12::from_(b), u12::from_(c)]
        .iter()
        .copied()
        .sum()
}

pub fn product_of_two_known() -> u7
    ensures { result ≡ pos 96 }
{
    [u7::new(4), u7::new(24)].iter().copied().product()
}

//! Code that is generic over the traits of `num_traits`.

ghost use Rattle.std.specs.Prelude.{◌≡◌, ◌+ℤ◌, pos, false};
ghost use Rattle.arbitrary_int.specs.Residue.{wrap};

use arbitrary_int::u7;
use num_traits::WrappingAdd;

/// The sum, wrapped, at any type of integers.
pub fn wrapped_sum<T: WrappingAdd>(a: T, b: T) -> T
    ensures { T.value result ≡ T.wrap (T.value a +ℤ T.value b) }
{
    a.wrapping_add(&b)
}

/// The number of the next message, which starts again at 0 after 127.
pub fn next_message(number: u7) -> u7
    ensures { result ≡ wrap false 7 (number +ℤ pos 1) }
{
    wrapped_sum(number, u7::new(1))
}

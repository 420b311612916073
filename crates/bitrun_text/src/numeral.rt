//! The numbers that words write.

ghost use Rattle.std.specs.Prelude.{◌≡◌, ◌≤◌, ◌<◌, ◌+◌, ◌-◌, ◌*◌, ◌^◌, None, length, drop, pos, neg_ℤ, option_map, MatchOption, IfSome};
ghost use Rattle.std.specs.Bool.{then_some};
ghost use Rattle.arbitrary_int.specs.Range.{in_range};
ghost use Rattle.bitrun_text.specs.Numeral.{number_in, integer_in, number_below, value_named, IsFar};
ghost use Rattle.bitrun_text.specs.Fast.{Reads};

use arbitrary_int::traits::Numbered;

/// The number of digits in a part of a word. Their number fits in 64 bits.
const PART: usize = 18;

/// `10 ^ 18`.
const SCALE: u128 = 1_000_000_000_000_000_000;

/// A number below this fits in 64 bits with one more digit.
pub const LARGE: u64 = u64::MAX / 10;

/// The number that the word's digits write, or `None` if it is not below the limit.
pub fn number_below(word: &[u8], limit: u128) -> Option<u128>
    requires { limit ≤ 2 ^ 120 }
    ensures value { result ≡ number_below limit word.now }
    ensures below { IfSome result (λ number. number < limit) }
{
    let length = word.len();
    let (front, back) = word.split_at(length.saturating_sub(PART));
    let (high, front_end) = digits(front, 0, LARGE);
    let (low, back_end) = digits(back, 0, LARGE);
    let end = front_end + back_end;
    if end == 0 || end < length {
        return None;
    }
    let number = u128::from(high) * SCALE + u128::from(low);
    if number < limit { Some(number) } else { None }
}

/// The number of the digit at the place, if no other digit follows it.
#[inline(always)]
pub fn one_digit(text: &[u8], at: usize) -> Option<u64>
    requires { at ≤ length text.now }
    ensures reads { IfSome result (λ n. Reads (drop at text.now) (at + 1 - at) n) }
    ensures within { IfSome result (λ n. at < length text.now) }
{
    if at + 1 < text.len() && text[at].is_ascii_digit() && !text[at + 1].is_ascii_digit() {
        Some(u64::from(text[at] - b'0'))
    } else {
        None
    }
}

/// The number that the digits from the place on write, and the place after them. It stops before a
/// digit with which the number would no longer be below the limit.
#[inline(always)]
pub fn digits(text: &[u8], start: usize, limit: u64) -> (u64, usize)
    requires start { start ≤ length text.now }
    requires limit { 10 * limit ≤ 2 ^ 64 }
    ensures reads { Reads (drop start text.now) (result.1 - start) result.0 }
    ensures stops { result.1 < length text.now → number_below limit (drop start text.now) ≡ None }
    ensures order { start ≤ result.1 }
    ensures room { result.1 ≤ length text.now }
    ensures below { start < result.1 → result.0 < limit }
{
    let mut number = 0;
    let mut at = start;
    while at < text.len() && text[at].is_ascii_digit() {
        let next = 10 * number + u64::from(text[at] - b'0');
        if next >= limit {
            break;
        }
        number = next;
        at += 1;
    }
    (number, at)
}

/// The value that the word writes, or `None` if it is out of range.
pub fn value_named<R: Numbered>(word: &[u8]) -> Option<R>
    requires width { R.valid }
    requires narrow { R.BITS ≤ 120 }
    ensures { option_map R.number result ≡ value_named R.IS_SIGNED R.BITS word.now }
{
    value_of(integer(word)?)
}

/// The number that the word writes, or `None` if no type of 120 bits contains it.
fn integer(word: &[u8]) -> Option<i128>
    ensures { MatchOption result (IsFar (integer_in word.now)) (λ x. integer_in word.now ≡ Some x) }
{
    const LIMIT: u128 = 1 << 120;
    match without_minus(word) {
        Some(digits) => Some(below_zero(number_below(digits, LIMIT)?)),
        None => Some(above_zero(number_below(word, LIMIT)?)),
    }
}

/// What follows the minus sign, if there is one.
fn without_minus(word: &[u8]) -> Option<&[u8]>
    ensures { MatchOption result (integer_in word.now ≡ option_map pos (number_in word.now))
        (λ digits. integer_in word.now ≡ option_map (λ n. neg_ℤ (pos n)) (number_in digits.now)) }
{
    word.strip_prefix(b"-")
}

pub fn above_zero(size: u128) -> i128
    requires { size < 2 ^ 120 }
    ensures { result ≡ pos size }
{
    size as i128
}

pub fn below_zero(size: u128) -> i128
    requires { size < 2 ^ 120 }
    ensures { result ≡ neg_ℤ (pos size) }
{
    -(size as i128)
}

/// The number as a value, or `None` if it is out of range: masking would then change it.
pub fn value_of<R: Numbered>(number: i128) -> Option<R>
    requires width { R.valid }
    requires narrow { R.BITS ≤ 120 }
    ensures { option_map R.number result ≡ then_some (in_range R.IS_SIGNED R.BITS number) number }
{
    let value = R::masked_new(number);
    if value.as_i128() == number {
        Some(value)
    } else {
        None
    }
}

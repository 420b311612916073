//! Decimal text of numbers, appended to a text.

ghost use Rattle.std.specs.Prelude.{◌≡◌, ◌≤◌, ◌<◌, ◌+◌, ◌*◌, ◌^◌, ◌++◌, ℕ, drop, length, decimal, unsigned_abs, OnOk};
ghost use Rattle.std.specs.Fmt.{signed_decimal};

use std::alloc::{AllocError, Allocator};

/// The longest text: a minus sign and 39 digits.
const LONGEST: usize = 40;

/// `10 ^ 18`. A number of at most 120 bits, divided by this, has 64 bits.
const EIGHTEEN_DIGITS: u128 = 1_000_000_000_000_000_000;

/// Appends the number.
pub fn push_decimal<B: Allocator>(text: &mut Vec<u8, B>, number: i128) -> Result<(), AllocError>
    requires { unsigned_abs number < 2 ^ 120 }
    ensures { OnOk result (text.new.items ≡ text.old.items ++ signed_decimal number) }
{
    let mut buffer = [0; LONGEST];
    let start = write_signed(number, &mut buffer);
    text.extend_from_slice(&buffer[start..])
}

/// Writes the text at the end of the buffer, and returns where it starts.
fn write_signed(number: i128, buffer: &mut [u8; LONGEST]) -> usize
    requires { unsigned_abs number < 2 ^ 120 }
    ensures within { result ≤ 40 }
    ensures written { drop result buffer.new ≡ signed_decimal number }
{
    let start = write_decimal(number.unsigned_abs(), buffer);
    if number >= 0 {
        return start;
    }
    buffer[start - 1] = b'-';
    start - 1
}

/// Writes the digits at the end of the buffer, and returns where they start.
fn write_decimal(number: u128, buffer: &mut [u8; LONGEST]) -> usize
    requires { number < 2 ^ 120 }
    ensures start { result + length (decimal number) ≡ 40 }
    ensures written { drop result buffer.new ≡ decimal number }
{
    if number < EIGHTEEN_DIGITS {
        return write_digits(number as u64, buffer, LONGEST);
    }
    write_low_digits((number % EIGHTEEN_DIGITS) as u64, buffer);
    write_digits((number / EIGHTEEN_DIGITS) as u64, buffer, LONGEST - 18)
}

/// Writes the digits so that they end at the place, and returns where they start.
fn write_digits(number: u64, buffer: &mut [u8; LONGEST], end: usize) -> usize
    requires { (length (decimal number) ≤ end) × (end ≤ 40) }
    ensures start { result + length (decimal number) ≡ end }
    ensures written { drop result buffer.new ≡ decimal number ++ drop end buffer.old }
{
    let mut left = number;
    let mut at = end;
    while left >= 10 {
        at -= 1;
        buffer[at] = b'0' + (left % 10) as u8;
        left /= 10;
    }
    at -= 1;
    buffer[at] = b'0' + left as u8;
    at
}

/// Writes the last 18 digits of a number at the end of the buffer.
fn write_low_digits(low: u64, buffer: &mut [u8; LONGEST])
    requires { low < 10 ^ 18 }
    ensures { (high : ℕ) → 0 < high → high < 2 ^ 64
        → decimal (high * 10 ^ 18 + low) ≡ decimal high ++ drop 22 buffer.new }
{
    let mut left = low;
    let mut at = LONGEST;
    while at > LONGEST - 18 {
        at -= 1;
        buffer[at] = b'0' + (left % 10) as u8;
        left /= 10;
    }
}

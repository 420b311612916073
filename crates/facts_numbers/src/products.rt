//! Facts about products of signed numbers that are then shifted, divided, rounded or clamped. The product of two
//! numbers of 12 bits has 24 bits.

ghost use Rattle.std.specs.Prelude.{◌≡◌, ◌+ℤ◌, ◌*ℤ◌};

use arbitrary_int::prelude::*;

pub fn shifted(a: i12, b: i12) -> i24 {
    (i24::from_(a) * i24::from_(b)) >> 8
}

pub fn truncated(a: i12, b: i12) -> i12 {
    ((i24::from_(a) * i24::from_(b)) >> 12).as_::<i12>()
}

pub fn rounded(a: i12, b: i12) -> i25 {
    (i25::from_(a) * i25::from_(b) + i25::new(1024)) >> 11
}

pub fn divided(a: i12, b: i12) -> i24 {
    i24::from_(a) * i24::from_(b) / i24::new(16)
}

pub fn scaled_by_a_byte(sample: i12, scale: u8) -> i12 {
    i12::from_(i20::from_(sample) * i20::from_(scale) / i20::new(256))
}

pub fn offset(gain: u4, sample: i12) -> i17 {
    i17::from_(sample) * i17::from_(gain) - i17::new(5)
}

pub fn added_and_shifted(a: i12, b: i12, c: i12) -> i25 {
    (i25::from_(a) * i25::from_(b) + i25::from_(c)) >> 3
}

pub fn clamped(a: i12, b: i12) -> i12 {
    let product = i24::from_(a) * i24::from_(b);
    if product > i24::new(2047) {
        i12::new(2047)
    } else if product < i24::new(-2048) {
        i12::new(-2048)
    } else {
        i12::from_(product)
    }
}

pub fn in_place(a: i12, b: i12) -> i24 {
    let mut product = i24::from_(a);
    product *= i24::from_(b);
    product >> 3
}

pub fn squares(a: i12, b: i12) -> i25
    ensures { result ≡ a *ℤ a +ℤ b *ℤ b }
{
    let x = i25::from_(a);
    let y = i25::from_(b);
    x * x + y * y
}

pub fn one_more(a: i12, b: i12) -> Option<i24> {
    (i24::from_(a) * i24::from_(b)).checked_add(i24::new(1))
}

pub fn of_an_unsigned_number(a: u12, b: i12) -> i24 {
    (i24::from_(a) * i24::from_(b)) >> 8
}

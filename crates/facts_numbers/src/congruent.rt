//! Facts modulo `2 ^ BITS`: distances, negated numbers, the low bits of results that wrap, and several operations that wrap, with
//! conversions between them.

ghost use Rattle.std.specs.Prelude.{◌≡◌, ◌+ℤ◌, ◌-ℤ◌, ◌*ℤ◌, ◌<ℤ◌, pos};
ghost use Rattle.arbitrary_int.specs.Residue.{Congruent};

use arbitrary_int::prelude::*;

pub fn distance(from: i12, to: i12) -> u12
    ensures { Congruent 12 result (to -ℤ from) }
{
    to.wrapping_sub(from).to_unsigned()
}

pub fn turn(from: u14, to: u14) -> i14
    ensures { Congruent 14 result (to -ℤ from) }
{
    i14::from_unsigned(to.wrapping_sub(from))
}

pub fn turn_by_conversion(from: u14, to: u14) -> i14
    ensures { Congruent 14 result (to -ℤ from) }
{
    to.wrapping_sub(from).as_::<i14>()
}

pub fn low_bits_of_sum(a: i24, b: i24) -> i12
    ensures { Congruent 12 result (a +ℤ b) }
{
    a.wrapping_add(b).as_::<i12>()
}

pub fn low_bits_of_product(a: u24, b: u24) -> u12
    ensures { Congruent 12 result (a *ℤ b) }
{
    a.wrapping_mul(b).as_::<u12>()
}

pub fn low_byte_of_sum(a: u24, b: u24) -> u8
    ensures { Congruent 8 (pos result) (a +ℤ b) }
{
    a.wrapping_add(b).as_u8()
}

pub fn negated(x: u12) -> u12
    ensures { Congruent 12 result (pos 0 -ℤ x) }
{
    x.wrapping_neg()
}

pub fn negated_number(x: u100) -> u100
    ensures zero { x ≡ pos 0 → result ≡ pos 0 }
    ensures other { pos 0 <ℤ x → result ≡ pos 1267650600228229401496703205376 -ℤ x }
{
    x.wrapping_neg()
}

// ---- several operations that wrap, with conversions between them

pub fn hash_step(hash: u12) -> u12
    ensures { Congruent 12 result (pos 5 *ℤ hash +ℤ pos 3) }
{
    hash.wrapping_mul(u12::new(5)).wrapping_add(u12::new(3))
}

pub fn moved(position: u14, step: i14) -> u14
    ensures { Congruent 14 result (position +ℤ step) }
{
    position.wrapping_add(step.to_unsigned())
}

pub fn halves(x: i12) -> (u7, u5)
    ensures { Congruent 12 x (pos 32 *ℤ result.0 +ℤ result.1) }
{
    let bits = x.to_unsigned();
    ((bits >> 5).as_::<u7>(), bits.as_::<u5>())
}

pub fn even_offset(x: u4) -> i13
    ensures { Congruent 1 result (pos 0) }
{
    i13::from_bits(x.as_u16() << 1)
}

pub fn counted_in_two_words(low: &mut u16, high: &mut u13)
    ensures { Congruent 29 (pos 65536 *ℤ high.new +ℤ pos low.new)
        (pos 65536 *ℤ high.old +ℤ pos low.old +ℤ pos 1) }
{
    if *low == u16::MAX {
        *low = 0;
        *high = high.wrapping_add(u13::new(1));
    } else {
        *low += 1;
    }
}

pub fn address_in_a_table(base: u24, index: i12, offset: i7) -> u24
    ensures { Congruent 24 result (base +ℤ index +ℤ offset) }
{
    base.wrapping_add(index.as_::<u24>())
        .wrapping_add(u24::masked_new(offset))
}

pub fn counted_by_a_product(counter: u24, steps: u12, size: u8) -> u24
    ensures { Congruent 24 result (counter +ℤ steps *ℤ pos size) }
{
    counter.wrapping_add((steps.as_u32() * u32::from(size)).as_::<u24>())
}

pub fn moved_by_a_signed_product(position: i24, speed: i8, time: i12) -> i24
    ensures { Congruent 24 result (position +ℤ speed *ℤ time) }
{
    position.wrapping_add(i24::from_(speed) * i24::from_(time))
}

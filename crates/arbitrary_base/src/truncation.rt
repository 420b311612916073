//! Truncation: a storage's number to fewer bits, and a pattern of 128 bits. The modules `wrapping`, `bitwise` and
//! `shifts` call std, and then a function of this module, which brings the result into the range.

ghost use Rattle.std.specs.Prelude.{◌≡◌, ◌≤◌, ◌<◌, ◌+◌, ◌%◌, ◌^◌, ◌-ℤ◌, ◌↔◌, pos, neg_ℤ, IsTrue};
ghost use Rattle.arbitrary_base.specs.Range.{lo, InRange};
ghost use Rattle.arbitrary_base.specs.Residue.{Congruent, residue, wrap};

use crate::storage::Storage;

/// The pattern whose low `bits` bits are one and whose other bits are zero.
#[tactic(auto, using(crate::proofs::modular::Truncation::low_mask_laws))]
pub const fn low_mask(bits: usize) -> u128
    requires { bits ≤ 128 }
    ensures value { result + 1 ≡ 2 ^ bits }
    ensures number { pos result ≡ pos (2 ^ bits) -ℤ pos 1 }
{
    if bits == 128 {
        u128::MAX
    } else {
        (1 << bits) - 1
    }
}

/// The low `bits` bits of a pattern.
pub fn masked(pattern: u128, bits: usize) -> u128
    requires { bits ≤ 128 }
    ensures { result ≡ pattern % 2 ^ bits }
{
    if bits == 128 {
        pattern
    } else {
        pattern % (1 << bits)
    }
}

/// How far the range of a type reaches below 0.
pub(crate) fn reach_below_zero(signed: bool, bits: usize) -> u128
    requires width { 1 ≤ bits }
    requires storage { bits ≤ 128 }
    ensures { pos result ≡ neg_ℤ (lo signed bits) }
{
    if signed { 1 << (bits - 1) } else { 0 }
}

/// The 128 bits of the number of `bits` bits that is congruent to the pattern: its zero extension
/// for an unsigned type, and its sign extension for a signed one.
// Shifting the range up to start at 0 makes the truncation exact for both signs, with no branch.
pub fn extend(signed: bool, pattern: u128, bits: usize) -> u128
    requires width { 1 ≤ bits }
    requires storage { bits ≤ 128 }
    ensures { Congruent 128 (pos result) (wrap signed bits (pos pattern)) }
{
    let offset = reach_below_zero(signed, bits);
    masked(pattern.wrapping_add(offset), bits).wrapping_sub(offset)
}

/// The number, truncated to the type of `bits` bits.
// Two shifts of the storage extend the sign, for which the compiler uses vector instructions.
pub fn truncated<T: Storage>(x: T, bits: usize) -> T
    requires width { 1 ≤ bits }
    requires storage { bits ≤ T.WIDTH }
    ensures value { T.number result ≡ wrap T.SIGNED bits (T.number x) }
    ensures result_in_range { InRange T.SIGNED bits (T.number result) }
{
    if T::SIGNED {
        let places = T::WIDTH - bits;
        x.shl_by(places).shr_by(places)
    } else {
        T::from_pattern(masked(x.pattern(), bits))
    }
}

/// The residue of the number modulo `2 ^ bits`.
pub fn low_bits<T: Storage>(x: T, bits: usize) -> u128
    requires width { 1 ≤ bits }
    requires storage { bits ≤ T.WIDTH }
    ensures value { result ≡ residue bits (T.number x) }
    ensures fits { result < 2 ^ bits }
{
    masked(x.pattern(), bits)
}

/// `low_bits` of a number in range. For an unsigned type this is the number, and nothing is masked.
pub fn low_bits_in_range<T: Storage>(x: T, bits: usize) -> u128
    requires width { 1 ≤ bits }
    requires storage { bits ≤ T.WIDTH }
    requires x_in_range { InRange T.SIGNED bits (T.number x) }
    ensures value { result ≡ residue bits (T.number x) }
    ensures fits { result < 2 ^ bits }
{
    if T::SIGNED {
        low_bits(x, bits)
    } else {
        x.pattern()
    }
}

/// The pattern, truncated to the type of `bits` bits.
pub fn from_low_bits<T: Storage>(pattern: u128, bits: usize) -> T
    requires width { 1 ≤ bits }
    requires storage { bits ≤ T.WIDTH }
    ensures value { T.number result ≡ wrap T.SIGNED bits (pos pattern) }
    ensures result_in_range { InRange T.SIGNED bits (T.number result) }
{
    truncated(T::from_pattern(pattern), bits)
}

/// The residue of the number modulo `2 ^ 128`: its pattern, extended to 128 bits.
pub fn to_u128_bits<T: Storage>(x: T) -> u128
    ensures { result ≡ residue 128 (T.number x) }
{
    extend(T::SIGNED, x.pattern(), T::WIDTH)
}

/// The number of one storage, truncated to `bits` bits over another storage.
pub fn cast<S: Storage, T: Storage>(x: S, bits: usize) -> T
    requires width { 1 ≤ bits }
    requires storage { bits ≤ T.WIDTH }
    ensures value { T.number result ≡ wrap T.SIGNED bits (S.number x) }
    ensures result_in_range { InRange T.SIGNED bits (T.number result) }
{
    from_low_bits(to_u128_bits(x), bits)
}

/// Whether the number is in the range of `bits` bits.
pub fn is_in_range<T: Storage>(x: T, bits: usize) -> bool
    requires width { 1 ≤ bits }
    requires storage { bits ≤ T.WIDTH }
    ensures { IsTrue result ↔ InRange T.SIGNED bits (T.number x) }
{
    truncated(x, bits).equal(&x)
}

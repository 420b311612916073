//! Text in the bases 2, 8 and 16: the number if it is at least 0, otherwise the two's complement of the storage.
//! The contracts state the text for storages of at most 64 bits, as std's do, and tests cover wider ones. `formats`
//! has decimal text.

ghost use Rattle.std.specs.Prelude.{◌≡◌, ◌≤◌, ◌≤ℤ◌, pos, true, false, unsigned_abs};
ghost use Rattle.std.specs.Fmt.{WritesOnOk, digits};
ghost use Rattle.arbitrary_base.specs.Residue.{residue};

use arbitrary_base::storage::Storage;
use std::fmt;

pub mod signed;
pub mod unsigned;

/// The high and the low 64 bits of the storage.
#[tactic(auto, using(crate::proofs::Word::words))]
pub(crate) fn words<T: Storage>(value: T) -> (u64, u64)
    ensures high { T.WIDTH ≤ 64 → result.0 ≡ 0 }
    ensures low { T.WIDTH ≤ 64 → result.1 ≡ residue T.WIDTH (T.number value) }
    ensures natural { let number = T.number value in
        T.WIDTH ≤ 64 → pos 0 ≤ℤ number → result.1 ≡ unsigned_abs number }
{
    let pattern = value.pattern();
    if pattern <= u64::MAX as u128 {
        (0, pattern as u64)
    } else {
        ((pattern >> 64) as u64, (pattern & u64::MAX as u128) as u64)
    }
}

/// Writes the storage's bits in hexadecimal, with small letters.
pub(crate) fn lower_hex<T: Storage, W: fmt::Write>(
    value: T,
    f: &mut fmt::Formatter<W>,
) -> fmt::Result
    ensures pattern { let text = digits 16 false (residue T.WIDTH (T.number value)) in
        T.WIDTH ≤ 64 → WritesOnOk W.write_str_gives f.old result text f.new }
    ensures natural { let text = digits 16 false (unsigned_abs (T.number value)) in
        T.WIDTH ≤ 64 → pos 0 ≤ℤ T.number value
        → WritesOnOk W.write_str_gives f.old result text f.new }
{
    let (high, low) = words(value);
    if high == 0 {
        fmt::LowerHex::fmt(&low, f)
    } else {
        fmt::LowerHex::fmt(&value.pattern(), f)
    }
}

/// Writes the storage's bits in hexadecimal, with capital letters.
pub(crate) fn upper_hex<T: Storage, W: fmt::Write>(
    value: T,
    f: &mut fmt::Formatter<W>,
) -> fmt::Result
    ensures pattern { let text = digits 16 true (residue T.WIDTH (T.number value)) in
        T.WIDTH ≤ 64 → WritesOnOk W.write_str_gives f.old result text f.new }
    ensures natural { let text = digits 16 true (unsigned_abs (T.number value)) in
        T.WIDTH ≤ 64 → pos 0 ≤ℤ T.number value
        → WritesOnOk W.write_str_gives f.old result text f.new }
{
    let (high, low) = words(value);
    if high == 0 {
        fmt::UpperHex::fmt(&low, f)
    } else {
        fmt::UpperHex::fmt(&value.pattern(), f)
    }
}

/// Writes the storage's bits in base 8.
pub(crate) fn octal<T: Storage, W: fmt::Write>(value: T, f: &mut fmt::Formatter<W>) -> fmt::Result
    ensures pattern { let text = digits 8 false (residue T.WIDTH (T.number value)) in
        T.WIDTH ≤ 64 → WritesOnOk W.write_str_gives f.old result text f.new }
    ensures natural { let text = digits 8 false (unsigned_abs (T.number value)) in
        T.WIDTH ≤ 64 → pos 0 ≤ℤ T.number value
        → WritesOnOk W.write_str_gives f.old result text f.new }
{
    let (high, low) = words(value);
    if high == 0 {
        fmt::Octal::fmt(&low, f)
    } else {
        fmt::Octal::fmt(&value.pattern(), f)
    }
}

/// Writes the storage's bits in base 2.
pub(crate) fn binary<T: Storage, W: fmt::Write>(value: T, f: &mut fmt::Formatter<W>) -> fmt::Result
    ensures pattern { let text = digits 2 false (residue T.WIDTH (T.number value)) in
        T.WIDTH ≤ 64 → WritesOnOk W.write_str_gives f.old result text f.new }
    ensures natural { let text = digits 2 false (unsigned_abs (T.number value)) in
        T.WIDTH ≤ 64 → pos 0 ≤ℤ T.number value
        → WritesOnOk W.write_str_gives f.old result text f.new }
{
    let (high, low) = words(value);
    if high == 0 {
        fmt::Binary::fmt(&low, f)
    } else {
        fmt::Binary::fmt(&value.pattern(), f)
    }
}

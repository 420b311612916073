//! A sensor with signed samples of 12 bits.

ghost use Rattle.std.specs.Prelude.{◌≡◌, ◌+ℤ◌, ◌-ℤ◌, ◌*ℤ◌, pos, int_div, true, MatchOption, take, drop};
ghost use Rattle.std.specs.List.{fold};
ghost use Rattle.arbitrary_int.specs.BitList.{bits, val};
ghost use Rattle.arbitrary_int.specs.Residue.{wrap};
ghost use Rattle.arbitrary_int.specs.Saturating.{clamp};
ghost use Rattle.arbitrary_int.specs.Totals.{PartialsFit};

use arbitrary_int::prelude::*;
use arbitrary_int::try_sum;

/// The sample in the low 12 bits of what the sensor sends. Bit 11 is its sign.
pub fn sample(raw: u16) -> i12
    ensures { result ≡ wrap true 12 (pos raw) }
{
    i12::masked_new(raw)
}

/// The sample in bits 12 to 23 of a word that holds two.
pub fn second_sample(word: u32) -> i12
    ensures { result ≡ val true (take 12 (drop 12 (bits 32 (pos word)))) }
{
    i12::extract_u32(word, 12)
}

/// The sample times `gain`, and the end of the range where that is out of range.
pub fn amplified(sample: i12, gain: i12) -> i12
    ensures { result ≡ clamp true 12 (sample *ℤ gain) }
{
    sample.saturating_mul(gain)
}

/// How far apart two samples are. With one bit more, no difference is out of range.
pub fn difference(a: i12, b: i12) -> i13
    ensures { result ≡ a -ℤ b }
{
    a.widen::<13>() - b.widen::<13>()
}

/// The sample in millivolts, rounded toward zero: 2048 steps are 2500 millivolts.
#[tactic(auto, using(crate::proofs::Samples::samples))]
pub fn millivolts(sample: i12) -> i32
    ensures { result ≡ int_div (sample *ℤ pos 2500) (pos 2048) }
{
    sample.as_i32() * 2500 / 2048
}

/// The sum of the samples, from the first on, or `None` if a partial sum is out of range, even if later samples would undo the
/// overflow.
pub fn sum(samples: &[i12]) -> Option<i12>
    ensures { MatchOption result (¬ (PartialsFit true 12 (λ a b. a +ℤ b) (pos 0) samples.now))
        (λ x. PartialsFit true 12 (λ a b. a +ℤ b) (pos 0) samples.now
        × (x ≡ fold (λ a b. a +ℤ b) (pos 0) samples.now)) }
{
    try_sum(samples.iter().copied())
}

//! Facts about default values, and about the calls of `num_traits`.

ghost use Rattle.std.specs.Prelude.{◌≡◌, ◌+ℤ◌, ◌-ℤ◌, ◌≤ℤ◌, pos, neg_ℤ, true, None};
ghost use Rattle.arbitrary_int.specs.Range.{InRange};
ghost use Rattle.arbitrary_int.specs.Residue.{Congruent};

use arbitrary_int::prelude::*;
use num_traits::{Bounded, SaturatingAdd, SaturatingSub, WrappingAdd};

pub fn no_volume() -> u12
    ensures { result ≡ pos 0 }
{
    u12::default()
}

pub fn greatest_volume() -> u12
    ensures { result ≡ pos 4095 }
{
    <u12 as Bounded>::max_value()
}

pub fn least_change() -> i12
    ensures { result ≡ neg_ℤ (pos 2048) }
{
    <i12 as Bounded>::min_value()
}

pub fn raised(volume: u12, step: u12) -> u12
    ensures { volume ≤ℤ result }
{
    SaturatingAdd::saturating_add(&volume, &step)
}

pub fn raised_far(level: i12, step: i12) -> i12
    requires { pos 2047 ≤ℤ (level +ℤ step) }
    ensures { result ≡ pos 2047 }
{
    SaturatingAdd::saturating_add(&level, &step)
}

pub fn lowered_little(level: i12, step: i12) -> i12
    requires { InRange true 12 (level -ℤ step) }
    ensures { result ≡ level -ℤ step }
{
    SaturatingSub::saturating_sub(&level, &step)
}

pub fn turned_on(phase: u12, step: u12) -> u12
    ensures { Congruent 12 result (phase +ℤ step) }
{
    WrappingAdd::wrapping_add(&phase, &step)
}

pub fn taken(setting: &mut u12) -> u12
    ensures taken { result ≡ setting.old }
    ensures left { setting.new ≡ pos 0 }
{
    std::mem::take(setting)
}

pub fn chosen(setting: Option<i12>) -> i12
    ensures { setting ≡ None → result ≡ pos 0 }
{
    setting.unwrap_or_default()
}

pub fn least<V: FixedWidth + Bounded>() -> V
    ensures { result ≡ V.lowest }
{
    <V as Bounded>::min_value()
}

pub fn nothing<V: FixedWidth + ValidWidth>() -> V
    ensures { V.number result ≡ pos 0 }
{
    V::zero()
}

pub fn low_bits<V: FixedWidth + ValidWidth>(word: u32) -> V
    ensures { Congruent V.BITS (V.number result) (pos word) }
{
    word.as_::<V>()
}

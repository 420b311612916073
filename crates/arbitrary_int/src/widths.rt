//! `run_wide`: a list of steps on wide registers, whose low bits go to narrow registers. The crate
//! `arbitrary_widths` is about the widths of a storage.

ghost use Rattle.std.specs.Prelude.{◌≡◌, ◌<◌, ◌≤◌, map, length, Ok, All};
ghost use Rattle.arbitrary_int.specs.Widths.{IsLowBit};
ghost use Rattle.arbitrary_int.specs.Steps.{StepWithin};
ghost use Rattle.arbitrary_base.specs.Residue.{wrap};
ghost use Rattle.arbitrary_int.specs.Runs.{RunOf};

use crate::runs::run;
use crate::steps::{Step, Stop};
use arbitrary_calls::calls::FixedWidthCalls;
use arbitrary_traits::numbered::Numbered;

/// The low bits of `wide`, at the type of `narrow`.
fn low_bits_of<W: Numbered, N: Numbered>(wide: W, narrow: N) -> N
    ensures number { N.number result ≡ wrap N.IS_SIGNED N.BITS (W.number wide) }
    ensures width { 1 ≤ N.BITS }
{
    // ensures that the width is valid
    let _pattern = narrow.to_u128_bits();
    N::masked_new(wide)
}

/// Sets each narrow register to the truncation of the wide one.
#[tactic(auto, using(crate::proofs::LowBitRuns::narrowed))]
fn narrow_all<W: Numbered, N: Numbered>(wide: &[W], narrow: &mut [N])
    requires { length wide.now ≡ length narrow.old }
    ensures low { map N.number narrow.new ≡ map (wrap N.IS_SIGNED N.BITS) (map W.number wide.now) }
    ensures width { 0 < length narrow.old → 1 ≤ N.BITS }
{
    for (at, low) in narrow.iter_mut().enumerate() {
        *low = low_bits_of(wide[at], *low);
    }
}

/// Runs the steps on the wide registers. Then, also after a stop, it sets each narrow register to
/// the truncation of the wide one. Requires that each register number is below the number of wide
/// registers, which `well_formed` tests, and that there are as many narrow ones.
///
/// If each step is a low-bit step of the narrow width (`IsLowBit` lists them), and that width is at
/// most the wide one, there is no stop. The narrow registers are then those of truncating first and
/// running narrow. The signs and storages may differ.
pub fn run_wide<W: FixedWidthCalls, N: Numbered>(
    steps: &[Step],
    wide: &mut [W],
    narrow: &mut [N],
) -> Result<(), Stop>
    requires well_formed { All (StepWithin (length wide.old)) steps.now }
    requires same_length { length wide.old ≡ length narrow.old }
    ensures registers { let before = map W.number wide.old in
        map W.number wide.new ≡ (RunOf W.IS_SIGNED W.BITS steps.now before).0 }
    ensures ending { let before = map W.number wide.old in
        result ≡ (RunOf W.IS_SIGNED W.BITS steps.now before).1 }
    ensures low { map N.number narrow.new ≡ map (wrap N.IS_SIGNED N.BITS) (map W.number wide.new) }
    ensures low_run { let before = map (wrap N.IS_SIGNED N.BITS) (map W.number wide.old) in
        let after = map N.number narrow.new in
        N.BITS ≤ W.BITS → All (IsLowBit N.BITS) steps.now
        → RunOf N.IS_SIGNED N.BITS steps.now before ≡ (after, Ok tt) }
    ensures low_ending { N.BITS ≤ W.BITS → All (IsLowBit N.BITS) steps.now → result ≡ Ok tt }
{
    let ending = run(steps, wide);
    narrow_all(wide, narrow);
    ending
}

//! The same steps at two widths: a wide register of which only the low bits are used, and a list of checked
//! steps that moves to a wider type.

ghost use Rattle.std.specs.Prelude.{◌≡◌, ◌*ℤ◌, true, map, length, Ok, All};
ghost use Rattle.arbitrary_int.specs.Steps.{StepWithin};
ghost use Rattle.arbitrary_int.specs.Residue.{wrap};
ghost use Rattle.arbitrary_int.specs.Runs.{RunOf};
ghost use Rattle.arbitrary_int.specs.Widths.{RangeWithin, IsCheckedArithmetic};

use arbitrary_int::prelude::*;
use arbitrary_int::{Step, Stop, TwoOp, run, run_wide};

/// The low 7 bits of a product of 14 bits. They are the product of the factors' own low 7 bits.
pub fn low_product(a: u14, b: u14) -> i7
    ensures { result ≡ wrap true 7 (wrap true 7 a *ℤ wrap true 7 b) }
{
    let steps = [Step::Two {
        op: TwoOp::WrappingMul,
        to: 0,
        left: 0,
        right: 1,
    }];
    let mut wide = [a, b];
    let mut narrow = [i7::new(0), i7::new(0)];
    let _ending = run_wide(&steps, &mut wide, &mut narrow);
    narrow[0]
}

/// Runs sums, differences, products and quotients on registers of one type, and again on the same numbers at
/// a wider type. The first run ends as the steps say. Where it has no stop, the second has none either, and
/// leaves the same numbers.
pub fn moved<A: FixedWidthCalls, B: FixedWidthCalls>(
    steps: &[Step],
    registers: &mut [A],
    wider: &mut [B],
) -> (Result<(), Stop>, Result<(), Stop>)
    requires within { All (StepWithin (length registers.old)) steps.now }
    requires arithmetic { All IsCheckedArithmetic steps.now }
    requires range { RangeWithin A.IS_SIGNED A.BITS B.IS_SIGNED B.BITS }
    requires alike { map A.number registers.old ≡ map B.number wider.old }
    ensures ending { result.0
        ≡ (RunOf A.IS_SIGNED A.BITS steps.now (map A.number registers.old)).1 }
    ensures same_ending { result.0 ≡ Ok tt → result.1 ≡ Ok tt }
    ensures same_registers { result.0 ≡ Ok tt
        → map B.number wider.new ≡ map A.number registers.new }
{
    (run(steps, registers), run(steps, wider))
}

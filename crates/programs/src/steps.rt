//! Constant lists of steps.
#![tactic(auto, using(arbitrary_laws::proofs::steps::Rulesets::steps))]

ghost use Rattle.std.specs.Prelude.{◌≡◌, ◌+ℤ◌, ◌≤ℤ◌, pos, IsTrue, Ok};

use arbitrary_int::prelude::*;
use arbitrary_int::{ByOp, Step, Stop, TwoOp, Why, run};

pub fn added_by_run(a: u12, b: u12) -> u12
    requires { (a +ℤ b) ≤ℤ pos 4095 }
    ensures { result ≡ a +ℤ b }
{
    let mut registers = [a, b];
    let _ = run(
        &[Step::Two {
            op: TwoOp::WrappingAdd,
            to: 0,
            left: 0,
            right: 1,
        }],
        &mut registers,
    );
    registers[0]
}

pub fn refused_by_a_step(a: u7) -> Result<(), Stop>
    requires { a ≡ pos 100 }
    ensures { ¬ (result ≡ Ok tt) }
{
    let mut registers = [a];
    run(
        &[Step::Two {
            op: TwoOp::CheckedAdd,
            to: 0,
            left: 0,
            right: 0,
        }],
        &mut registers,
    )
}

pub fn the_step_is_the_call(a: i12, b: i12) -> bool
    ensures { IsTrue result }
{
    let mut registers = [a, b];
    let _ = run(
        &[Step::Two {
            op: TwoOp::Xor,
            to: 0,
            left: 0,
            right: 1,
        }],
        &mut registers,
    );
    let first = registers[0];
    first == a ^ b
}

pub fn stops_where_the_sum_is_refused() -> bool
    ensures { IsTrue result }
{
    let mut registers = [u7::new(100), u7::new(50), u7::new(0)];
    let ending = run(
        &[
            Step::Two {
                op: TwoOp::WrappingAdd,
                to: 2,
                left: 0,
                right: 1,
            },
            Step::Two {
                op: TwoOp::CheckedAdd,
                to: 0,
                left: 0,
                right: 1,
            },
        ],
        &mut registers,
    );
    let sum = registers[2];
    sum.value() == 22
        && ending
            == Err(Stop {
                at: 1,
                why: Why::Refused,
            })
}

pub fn halves_what_differs() -> bool
    ensures { IsTrue result }
{
    let mut registers = [i7::new(-50), i7::new(30)];
    let _ = run(
        &[
            Step::Two {
                op: TwoOp::Xor,
                to: 0,
                left: 0,
                right: 1,
            },
            Step::By {
                op: ByOp::WrappingShr,
                to: 0,
                src: 0,
                amount: 1,
            },
        ],
        &mut registers,
    );
    let first = registers[0];
    first.value() == -24
}

/// With a second set of laws, next to that of steps.
#[tactic(auto, using(arbitrary_laws::proofs::steps::Rulesets::steps, arbitrary_laws::proofs::bits::Rulesets::bits))]
pub fn exchanged(a: u12, b: u12) -> bool
    ensures { IsTrue result }
{
    let mut registers = [a, b];
    let _ = run(
        &[
            Step::Two {
                op: TwoOp::Xor,
                to: 0,
                left: 0,
                right: 1,
            },
            Step::Two {
                op: TwoOp::Xor,
                to: 1,
                left: 0,
                right: 1,
            },
            Step::Two {
                op: TwoOp::Xor,
                to: 0,
                left: 0,
                right: 1,
            },
        ],
        &mut registers,
    );
    let first = registers[0];
    let second = registers[1];
    first == b && second == a
}

//! Registers in decimal, and how a run ended, appended to a text.

ghost use Rattle.std.specs.Prelude.{◌≡◌, ◌≤◌, ◌<◌, ◌^◌, ◌∷◌, ◌++◌, [], map, unsigned_abs, OnOk};
ghost use Rattle.std.specs.List.{flat_map, join_with_byte};
ghost use Rattle.std.specs.Fmt.{signed_decimal};
ghost use Rattle.bitrun_service.specs.Output.{after_space, cause_text, ending_text, output_text};

use crate::decimal::push_decimal;
use arbitrary_int::traits::Numbered;
use arbitrary_int::{Stop, Why};
use std::alloc::{AllocError, Allocator};

/// Appends the wide and the narrow registers in decimal, and how the run ended.
pub(crate) fn push_wide_output<W: Numbered, N: Numbered, B: Allocator>(
    text: &mut Vec<u8, B>,
    wide: &[W],
    narrow: &[N],
    ending: Result<(), Stop>,
) -> Result<(), AllocError>
    requires wide_fits { W.BITS ≤ 120 }
    requires narrow_fits { N.BITS ≤ 120 }
    ensures { OnOk result
        (text.new.items ≡ text.old.items ++
        (join_with_byte 32 (map signed_decimal (map W.number wide.now)) ++ 10 ∷ output_text
        (map N.number narrow.now, ending))) }
{
    push_registers(text, wide)?;
    text.push(b'\n')?;
    push_output(text, narrow, ending)
}

/// Appends the registers in decimal, and how the run ended.
pub(crate) fn push_output<R: Numbered, B: Allocator>(
    text: &mut Vec<u8, B>,
    registers: &[R],
    ending: Result<(), Stop>,
) -> Result<(), AllocError>
    requires { R.BITS ≤ 120 }
    ensures { OnOk result
        (text.new.items ≡ text.old.items ++ output_text (map R.number registers.now, ending)) }
{
    push_registers(text, registers)?;
    push_ending(text, ending)
}

/// Appends the numbers, with a space between two of them.
fn push_registers<R: Numbered, B: Allocator>(
    text: &mut Vec<u8, B>,
    registers: &[R],
) -> Result<(), AllocError>
    requires { R.BITS ≤ 120 }
    ensures { OnOk result
        (text.new.items ≡ text.old.items ++ join_with_byte 32
        (map signed_decimal (map R.number registers.now))) }
{
    match registers.split_first() {
        Some((first, others)) => {
            push_register(text, *first)?;
            push_others(text, others)?;
            Ok(())
        }
        None => Ok(()),
    }
}

/// Appends the numbers, each after a space.
fn push_others<R: Numbered, B: Allocator>(
    text: &mut Vec<u8, B>,
    others: &[R],
) -> Result<(), AllocError>
    requires { R.BITS ≤ 120 }
    ensures { OnOk result
        (text.new.items ≡ text.old.items ++ flat_map after_space (map R.number others.now)) }
{
    for register in others {
        text.push(b' ')?;
        push_register(text, *register)?;
    }
    Ok(())
}

fn push_register<R: Numbered, B: Allocator>(
    text: &mut Vec<u8, B>,
    register: R,
) -> Result<(), AllocError>
    requires { R.BITS ≤ 120 }
    ensures { OnOk result (text.new.items ≡ text.old.items ++ signed_decimal (R.number register)) }
{
    push_decimal(text, number_of(register))
}

/// The number of a register, which is in range of its type.
fn number_of<R: Numbered>(register: R) -> i128
    requires { R.BITS ≤ 120 }
    ensures number { result ≡ R.number register }
    ensures small { unsigned_abs result < 2 ^ 120 }
{
    i128::from_u128_bits(register.to_u128_bits())
}

/// Appends how the run ended.
fn push_ending<B: Allocator>(
    text: &mut Vec<u8, B>,
    ending: Result<(), Stop>,
) -> Result<(), AllocError>
    ensures { OnOk result
        (text.new.items ≡ text.old.items ++ 10 ∷ (ending_text ending ++ 10 ∷ [])) }
{
    match ending {
        Ok(()) => text.extend_from_slice(b"\ndone\n"),
        Err(Stop { at, why }) => {
            text.extend_from_slice(b"\nstopped at ")?;
            push_decimal(text, at as i128)?;
            text.extend_from_slice(b": ")?;
            text.extend_from_slice(cause_text(why))?;
            text.push(b'\n')?;
            Ok(())
        }
    }
}

fn cause_text(why: Why) -> &'static [u8]
    ensures { result.now ≡ cause_text why }
{
    match why {
        Why::Refused => b"refused",
        Why::ZeroDivisor => b"zero divisor",
    }
}

//! The functions of the README.
#![tactic(auto)]

ghost use Rattle.std.specs.Prelude.{◌≡◌, ◌+ℤ◌, neg_ℤ, false, true};
ghost use Rattle.arbitrary_int.specs.Residue.{Congruent};
ghost use Rattle.bit_fields.specs.BitField.{HasNumber};

use arbitrary_int::prelude::*;
use bit_fields::Record;

/// The checksum, modulo 2^12.
pub fn checksum(header: u12, payload: u12) -> u12
    ensures { Congruent 12 result (header +ℤ payload) }
{
    header.wrapping_add(payload)
}

/// The sample with its sign changed. 15 bits have room for 8192.
pub fn inverted(sample: i14) -> i15
    ensures { result ≡ neg_ℤ sample }
{
    -i15::from_(sample)
}

/// A timer's control register: the mode in bits 0 to 2, the prescaler in bits 3 to 7, the offset in bits 8 to 21.
pub fn control(mode: u3, prescaler: u5, offset: i14) -> Record
    ensures mode { HasNumber false result.bits 0 3 mode }
    ensures prescaler { HasNumber false result.bits 3 5 prescaler }
    ensures offset { HasNumber true result.bits 8 14 offset }
{
    let mut register = Record { bits: 0 };
    register.put(0, mode);
    register.put(3, prescaler);
    register.put(8, offset);
    register
}

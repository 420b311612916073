//! Signed fields, written into a register whose other bits do not change, and read back.
#![tactic(auto, using(arbitrary_laws::proofs::Sets::fields))]

ghost use Rattle.std.specs.Prelude.{◌≡◌, ◌/◌, ◌%◌, pos};
ghost use Rattle.arbitrary_int.specs.Residue.{Congruent};

use arbitrary_int::prelude::*;

pub fn with_trim(register: u16, trim: i6) -> u16
    ensures low { result % 16 ≡ register % 16 }
    ensures high { result / 1024 ≡ register / 1024 }
    ensures field { Congruent 6 (pos (result / 16)) trim }
{
    let others = register & 0xFC0F;
    others | (u16::from(trim.to_bits()) << 4)
}

#[tactic(auto, using(arbitrary_laws::proofs::fields::SignedField::signed_fields))]
pub fn trim_back(register: u16, trim: i6) -> i6
    ensures { result ≡ trim }
{
    let word = (register & 0xFC0F) | (u16::from(trim.to_bits()) << 4);
    i6::extract_u16(word, 4)
}

#[tactic(auto, using(arbitrary_laws::proofs::fields::SignedField::signed_fields))]
pub fn gain_back(byte: u8, gain: i3) -> i3
    ensures { result ≡ gain }
{
    let word = (byte & 0b1110_0011) | (gain.to_bits() << 2);
    i3::from_bits((word >> 2) & 7)
}

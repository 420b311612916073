//! Signed fields in a word that is joined by `|`: written and read back, and read and written again.
#![tactic(auto, using(arbitrary_laws::proofs::fields::SignedField::signed_fields))]

ghost use Rattle.std.specs.Prelude.{◌≡◌, IsTrue};

use arbitrary_int::prelude::*;

pub fn each_by_its_bits(x: i12, y: i4) -> bool
    ensures { IsTrue result }
{
    let word = (x.to_bits() << 4) | u16::from(y.to_bits());
    i12::from_bits(word >> 4) == x && i4::from_bits((word & 15) as u8) == y
}

pub fn high_one_read_back(x: i12, y: i4) -> i12
    ensures { result ≡ x }
{
    let word = (x.to_unsigned().as_u16() << 4) | y.to_unsigned().as_u16();
    i12::extract_u16(word, 4)
}

pub fn written_again(word: u32) -> u32
    ensures { result ≡ word }
{
    let x = i20::extract_u32(word, 12);
    let y = i12::extract_u32(word, 0);
    (x.to_unsigned().as_u32() << 12) | y.to_unsigned().as_u32()
}

/// The number in an instruction of RISC-V that adds it.
pub fn number_beside_registers(number: i12, source: u5, target: u5) -> i12
    ensures { result ≡ number }
{
    let word = (number.to_unsigned().as_u32() << 20)
        | (source.as_u32() << 15)
        | (target.as_u32() << 7)
        | 0x13;
    i12::extract_u32(word, 20)
}

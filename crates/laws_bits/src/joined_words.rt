//! Words of any number of fields, joined by `|` and read back. One set proves each spelling in either order.
//! Some functions name that set with tests by `==`.
#![tactic(auto, using(arbitrary_laws::proofs::fields::JoinedWords::joined_words))]

ghost use Rattle.std.specs.Prelude.{◌≡◌, ◌+◌, ◌/◌, ◌+ℤ◌, ◌*ℤ◌, pos, IsTrue, false, if◌then◌else◌};
ghost use Rattle.arbitrary_int.specs.Field.{field};
ghost use Rattle.arbitrary_int.specs.Residue.{Congruent, wrap};

use arbitrary_int::prelude::*;

pub fn three_above_a_number(second: u5, first: u5, target: u5) -> u32
    ensures { pos result ≡ pos 1048576 *ℤ second +ℤ pos 32768 *ℤ first +ℤ pos 128 *ℤ target
        +ℤ pos 51 }
{
    (second.as_u32() << 20) | (first.as_u32() << 15) | (target.as_u32() << 7) | 0x33
}

pub fn three_by_a_cast(a: u3, b: u12, c: u5) -> u32
    ensures { pos result ≡ pos 268435456 *ℤ a +ℤ pos 65536 *ℤ b +ℤ pos 256 *ℤ c }
{
    ((a.value() as u32) << 28) | ((b.value() as u32) << 16) | ((c.value() as u32) << 8)
}

pub fn seven(
    version: u2,
    padding: u1,
    extension: u1,
    sources: u4,
    marker: u1,
    payload: u7,
    sequence: u16,
) -> u32
    ensures { pos result ≡ pos 1073741824 *ℤ version +ℤ pos 536870912 *ℤ padding
        +ℤ pos 268435456 *ℤ extension +ℤ pos 16777216 *ℤ sources +ℤ pos 8388608 *ℤ marker
        +ℤ pos 65536 *ℤ payload +ℤ pos sequence }
{
    (version.as_u32() << 30)
        | (padding.as_u32() << 29)
        | (extension.as_u32() << 28)
        | (sources.as_u32() << 24)
        | (marker.as_u32() << 23)
        | (payload.as_u32() << 16)
        | u32::from(sequence)
}

pub fn numbers_at_two_places(a: u6, b: u5, c: u3, d: u5) -> u32
    ensures { pos result ≡ pos 2147483648 +ℤ pos 16777216 *ℤ d +ℤ pos 2097152 *ℤ c +ℤ pos 65536 *ℤ b
        +ℤ pos 8192 +ℤ a }
{
    0x8000_0000 | (d.as_u32() << 24) | (c.as_u32() << 21) | (b.as_u32() << 16) | 0x2000 | a.as_u32()
}

pub fn flags(a: bool, b: bool, c: bool, d: bool) -> u8
    ensures { result ≡ (if a then 8 else 0) + (if b then 4 else 0) + (if c then 2 else 0)
        + (if d then 1 else 0) }
{
    (u8::from(a) << 3) | (u8::from(b) << 2) | (u8::from(c) << 1) | u8::from(d)
}

/// An entry of a label stack.
#[derive(Clone, Copy, Debug, PartialEq, Eq)]
pub struct Label {
    pub label: u20,
    pub traffic: u3,
    pub bottom: bool,
    pub lifetime: u8,
}

impl Label {
    // Behind a reference no call but `as_u32` says that a byte is one.
    pub fn pack(&self) -> u32
        ensures { pos result ≡ pos 4096 *ℤ self.now.label +ℤ pos 512 *ℤ self.now.traffic
            +ℤ pos (if self.now.bottom then 256 else 0) +ℤ pos self.now.lifetime }
    {
        (self.label.value() << 12)
            | (self.traffic.as_u32() << 9)
            | (u32::from(self.bottom) << 8)
            | self.lifetime.as_u32()
    }
}

/// The fields of an instruction.
#[derive(Clone, Copy, Debug, PartialEq, Eq)]
pub struct Instruction {
    pub number: u12,
    pub source: u5,
    pub function: u3,
    pub target: u5,
    pub operation: u7,
}

impl Instruction {
    pub fn encode(self) -> u32
        ensures { pos result ≡ pos 1048576 *ℤ self.number +ℤ pos 32768 *ℤ self.source
            +ℤ pos 4096 *ℤ self.function +ℤ pos 128 *ℤ self.target +ℤ self.operation }
    {
        (self.number.as_u32() << 20)
            | (self.source.as_u32() << 15)
            | (self.function.as_u32() << 12)
            | (self.target.as_u32() << 7)
            | self.operation.as_u32()
    }

    pub fn decode(word: u32) -> Instruction
        ensures number { result.number ≡ field word 20 12 }
        ensures source { result.source ≡ field word 15 5 }
        ensures function { result.function ≡ field word 12 3 }
        ensures target { result.target ≡ field word 7 5 }
        ensures operation { result.operation ≡ field word 0 7 }
    {
        Instruction {
            number: u12::extract_u32(word, 20),
            source: u5::extract_u32(word, 15),
            function: u3::extract_u32(word, 12),
            target: ((word >> 7) & 31).as_::<u5>(),
            operation: word.as_::<u7>(),
        }
    }
}

pub fn decoded_of_encoded(instruction: Instruction) -> Instruction
    ensures { result ≡ instruction }
{
    Instruction::decode(instruction.encode())
}

pub fn signed_beside_fields(number: i12, source: u5, target: u5) -> u32
    ensures { pos result ≡ pos 1048576 *ℤ wrap false 12 number +ℤ pos 32768 *ℤ source
        +ℤ pos 128 *ℤ target }
{
    (number.to_unsigned().as_u32() << 20) | (source.as_u32() << 15) | (target.as_u32() << 7)
}

pub fn one_of_five_read_back(a: u3, b: u5, c: u8, d: u6, e: u10) -> u6
    ensures { result ≡ d }
{
    let word = (a.as_u32() << 29)
        | (b.as_u32() << 24)
        | (u32::from(c) << 16)
        | (d.as_u32() << 10)
        | e.as_u32();
    (word >> 10).as_::<u6>()
}

#[tactic(auto, using(arbitrary_laws::proofs::fields::JoinedWords::words_read_back))]
pub fn each_read_back(version: u4, kind: u4, size: u24) -> bool
    ensures { IsTrue result }
{
    let word = (version.as_u32() << 28) | (kind.as_u32() << 24) | size.value();
    (word >> 28).as_::<u4>() == version
        && (word >> 24) & 15 == kind.as_u32()
        && u24::extract_u32(word, 0) == size
}

#[tactic(auto, using(arbitrary_laws::proofs::fields::JoinedWords::words_read_back))]
pub fn read_back_beside_numbers(mode: u3, source: u5) -> bool
    ensures { IsTrue result }
{
    let word = 0x8000 | (mode.as_u16() << 8) | 0x40 | source.as_u16();
    u3::extract_u16(word, 8) == mode && word.as_::<u5>() == source && word >> 15 == 1
}

#[tactic(auto, using(arbitrary_laws::proofs::fields::JoinedWords::words_read_back))]
pub fn read_back_below_a_mask(word: u32, low: u5, high: u3) -> bool
    ensures { IsTrue result }
{
    let written = (word & 0xFFFF_0000) | (high.as_u32() << 8) | low.as_u32();
    u3::extract_u32(written, 8) == high
        && u5::extract_u32(written, 0) == low
        && written >> 16 == word >> 16
}

#[tactic(auto, using(arbitrary_laws::proofs::fields::JoinedWords::words_read_back, arbitrary_laws::proofs::numbers::Conversions::congruences))]
pub fn counted_below_the_highest_bit(count: u8) -> u8
    ensures high { result / 128 ≡ count / 128 }
    ensures low { Congruent 7 (pos result) (pos count +ℤ pos 1) }
{
    (count & 0x80) | u7::masked_new(count).wrapping_add(u7::new(1)).value()
}

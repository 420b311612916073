//! Fields in a record of 128 bits, such as a packet header, a device register or an instruction.
#![tactic(auto)]

ghost use Rattle.std.specs.Prelude.{◌≡◌, ◌+◌, ◌/◌, ◌%◌, ◌≤◌, ◌<◌, ◌^◌, ◌↔◌, ℕ, false, pos, IsTrue};
ghost use Rattle.arbitrary_int.specs.BitList.{bits as bits_of, val};
ghost use Rattle.arbitrary_int.specs.Field.{field};
ghost use Rattle.arbitrary_int.specs.Range.{InRange};
ghost use Rattle.arbitrary_int.specs.Residue.{residue, Congruent};
ghost use Rattle.bit_fields.specs.BitField.{AreDisjoint, HasNumber, field_bits, with_field};

use arbitrary_base::truncation::low_mask;
use arbitrary_int::traits::Numbered;

pub mod laws;

/// A record of 128 bits. Bit 0 is the lowest.
#[derive(Clone, Copy, Debug, PartialEq, Eq)]
pub struct Record {
    pub bits: u128,
}

impl Record {
    /// The value of the field of `F::BITS` bits from bit `start` on. `F` is `UInt`, `Int` or a
    /// primitive. Requires a valid width, and that `start + F::BITS` is at most 128.
    pub fn get<F: Numbered>(&self, start: usize) -> F
        requires width { F.valid }
        requires within { start + F.BITS ≤ 128 }
        ensures value { F.number result ≡ val F.IS_SIGNED (field_bits self.now.bits start F.BITS) }
        ensures plain { F.IS_SIGNED ≡ false → F.number result ≡ field self.now.bits start F.BITS }
        ensures congruent { Congruent F.BITS (F.number result) (pos (self.now.bits / 2 ^ start)) }
    {
        F::from_u128_bits(self.bits >> start)
    }

    /// Puts the value's bits into the field of `F::BITS` bits from bit `start` on, and changes no
    /// other bit. `F` is `UInt`, `Int` or a primitive. Requires that `start + F::BITS` is at most
    /// 128.
    pub fn put<F: Numbered>(&mut self, start: usize, value: F)
        requires { start + F.BITS ≤ 128 }
        ensures bits { let list = bits_of F.BITS (F.number value) in
            self.new.bits ≡ with_field self.old.bits start list }
        ensures read_back { HasNumber F.IS_SIGNED self.new.bits start F.BITS (F.number value) }

        // The same in numbers: the bits below, those of the field, and those above.
        ensures low { self.new.bits % 2 ^ start ≡ self.old.bits % 2 ^ start }
        ensures plain { F.IS_SIGNED ≡ false → field self.new.bits start F.BITS ≡ F.number value }
        ensures congruent { Congruent F.BITS (pos (self.new.bits / 2 ^ start)) (F.number value) }
        ensures high { self.new.bits / 2 ^ (start + F.BITS) ≡ self.old.bits / 2 ^ (start + F.BITS) }

        // A value that the field already has changes nothing.
        ensures same { let before = self.old.bits in
            HasNumber F.IS_SIGNED before start F.BITS (F.number value) → self.new.bits ≡ before }

        // Each field below this one, and each above, reads as before.
        ensures below { (other width : ℕ) → other + width ≤ start
            → field_bits self.new.bits other width ≡ field_bits self.old.bits other width }
        ensures above { (other width : ℕ) → start + F.BITS ≤ other
            → field_bits self.new.bits other width ≡ field_bits self.old.bits other width }
    {
        self.bits = replaced(self.bits, start, F::BITS, bits_alone(value));
    }
}

/// The value's bits, with zeros above them.
// The pattern of an unsigned number has only zeros above, so nothing is masked.
fn bits_alone<F: Numbered>(value: F) -> u128
    ensures value { result ≡ residue F.BITS (F.number value) }
    ensures short { result < 2 ^ F.BITS }
    ensures value_in_range { InRange F.IS_SIGNED F.BITS (F.number value) }
    ensures width { F.valid }
{
    let pattern = value.to_u128_bits();
    if F::IS_SIGNED {
        pattern & low_mask(F::BITS)
    } else {
        pattern
    }
}

/// The word with the pattern in its `count` bits from bit `start` on.
fn replaced(word: u128, start: usize, count: usize, pattern: u128) -> u128
    requires some { 1 ≤ count }
    requires within { start + count ≤ 128 }
    requires short { pattern < 2 ^ count }
    ensures { result ≡ with_field word start (bits_of count (pos pattern)) }
{
    (word & !(low_mask(count) << start)) | (pattern << start)
}

/// Whether two fields share no bit. Each has a start and a width, and requires that their sum is at
/// most 128.
pub fn disjoint(start1: usize, width1: usize, start2: usize, width2: usize) -> bool
    requires first { start1 + width1 ≤ 128 }
    requires second { start2 + width2 ≤ 128 }
    ensures { IsTrue result ↔ AreDisjoint start1 width1 start2 width2 }
{
    width1 == 0 || width2 == 0 || start1 + width1 <= start2 || start2 + width2 <= start1
}

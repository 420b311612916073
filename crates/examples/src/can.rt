//! The identifier of a CAN frame: 29 bits, which SAE J1939 divides into fields.
//!
//! | Bits     | Field              | Type  |
//! |----------|--------------------|-------|
//! | 26 to 28 | priority           | `u3`  |
//! | 25       | extended data page | `u1`  |
//! | 24       | data page          | `u1`  |
//! | 16 to 23 | PDU format         | `u8`  |
//! | 8 to 15  | PDU specific       | `u8`  |
//! | 0 to 7   | source address     | `u8`  |

ghost use Rattle.std.specs.Prelude.{◌≡◌, pos, false};
ghost use Rattle.bit_fields.specs.BitField.{field_bits};
ghost use Rattle.arbitrary_int.specs.BitList.{val};

use arbitrary_int::prelude::*;
use bit_fields::Record;

/// What an identifier says.
#[derive(Clone, Copy, Debug, PartialEq, Eq)]
pub struct Identifier {
    /// 0 goes first.
    pub priority: u3,
    pub extended_data_page: u1,
    pub data_page: u1,
    pub format: u8,
    /// The destination's address where the format is below 240.
    pub specific: u8,
    pub source: u8,
}

impl Identifier {
    /// The fields of the identifier in the low 29 bits.
    pub fn read(word: &Record) -> Identifier
        ensures priority { result.priority ≡ val false (field_bits word.now.bits 26 3) }
        ensures extended_data_page { result.extended_data_page
            ≡ val false (field_bits word.now.bits 25 1) }
        ensures data_page { result.data_page ≡ val false (field_bits word.now.bits 24 1) }
        ensures format { pos result.format ≡ val false (field_bits word.now.bits 16 8) }
        ensures specific { pos result.specific ≡ val false (field_bits word.now.bits 8 8) }
        ensures source { pos result.source ≡ val false (field_bits word.now.bits 0 8) }
    {
        Identifier {
            priority: word.get(26),
            extended_data_page: word.get(25),
            data_page: word.get(24),
            format: word.get(16),
            specific: word.get(8),
            source: word.get(0),
        }
    }

    /// Writes the fields into the low 29 bits. The other bits stay.
    pub fn write(self, word: &mut Record)
        ensures priority { val false (field_bits word.new.bits 26 3) ≡ self.priority }
        ensures extended_data_page { val false (field_bits word.new.bits 25 1)
            ≡ self.extended_data_page }
        ensures data_page { val false (field_bits word.new.bits 24 1) ≡ self.data_page }
        ensures format { val false (field_bits word.new.bits 16 8) ≡ pos self.format }
        ensures specific { val false (field_bits word.new.bits 8 8) ≡ pos self.specific }
        ensures source { val false (field_bits word.new.bits 0 8) ≡ pos self.source }
        ensures others { field_bits word.new.bits 29 99 ≡ field_bits word.old.bits 29 99 }
    {
        word.put(26, self.priority);
        word.put(25, self.extended_data_page);
        word.put(24, self.data_page);
        word.put(16, self.format);
        word.put(8, self.specific);
        word.put(0, self.source);
    }
}

/// What is read back is what was written.
pub fn written_and_read(identifier: Identifier, word: &mut Record) -> Identifier
    ensures { result ≡ identifier }
{
    identifier.write(word);
    Identifier::read(word)
}

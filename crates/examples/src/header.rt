//! The first 32 bits of an IPv4 header, and the 16 bits that place a fragment.
//!
//! | Bits     | Field         | Type  |
//! |----------|---------------|-------|
//! | 28 to 31 | version       | `u4`  |
//! | 24 to 27 | header length | `u4`  |
//! | 18 to 23 | DSCP          | `u6`  |
//! | 16 and 17| ECN           | `u2`  |
//! | 0 to 15  | total length  | `u16` |

ghost use Rattle.std.specs.Prelude.{◌≡◌, ◌+ℤ◌, ◌*ℤ◌, pos};
ghost use Rattle.arbitrary_int.specs.Field.{field};

use arbitrary_int::prelude::*;

/// The start of a header.
#[derive(Clone, Copy, Debug, PartialEq, Eq)]
pub struct Start {
    pub version: u4,
    /// The header's length in words of 32 bits.
    pub header_length: u4,
    pub dscp: u6,
    pub ecn: u2,
    /// The packet's length in bytes.
    pub total_length: UInt<u16, 16>,
}

impl Start {
    /// The fields of a header's first word.
    pub fn decode(word: u32) -> Start
        ensures version { result.version ≡ field word 28 4 }
        ensures header_length { result.header_length ≡ field word 24 4 }
        ensures dscp { result.dscp ≡ field word 18 6 }
        ensures ecn { result.ecn ≡ field word 16 2 }
        ensures total_length { result.total_length ≡ field word 0 16 }
    {
        Start {
            version: u4::extract_u32(word, 28),
            header_length: u4::extract_u32(word, 24),
            dscp: u6::extract_u32(word, 18),
            ecn: u2::extract_u32(word, 16),
            total_length: UInt::<u16, 16>::extract_u32(word, 0),
        }
    }

    /// The word that has these fields.
    // No two fields share a bit, so the sum puts them side by side.
    pub fn encode(self) -> u32
        ensures version { field result 28 4 ≡ self.version }
        ensures header_length { field result 24 4 ≡ self.header_length }
        ensures dscp { field result 18 6 ≡ self.dscp }
        ensures ecn { field result 16 2 ≡ self.ecn }
        ensures total_length { field result 0 16 ≡ self.total_length }
    {
        (u32::from_(self.version) << 28)
            + (u32::from_(self.header_length) << 24)
            + (u32::from_(self.dscp) << 18)
            + (u32::from_(self.ecn) << 16)
            + u32::from_(self.total_length)
    }
}

/// The word of a packet that met congestion: its ECN is 3, and its other bits are as they were.
pub fn with_congestion(word: u32) -> u32
    ensures { pos result +ℤ pos 65536 *ℤ field word 16 2 ≡ pos word +ℤ pos 65536 *ℤ pos 3 }
{
    let start = Start {
        ecn: u2::new(3),
        ..Start::decode(word)
    };
    start.encode()
}

/// Where a fragment lies in its packet.
///
/// | Bits    | Field          | Type  |
/// |---------|----------------|-------|
/// | 15      | reserved       | `u1`  |
/// | 14      | don't fragment | `u1`  |
/// | 13      | more fragments | `u1`  |
/// | 0 to 12 | offset         | `u13` |
#[derive(Clone, Copy, Debug, PartialEq, Eq)]
pub struct Fragment {
    pub reserved: u1,
    pub dont_fragment: u1,
    pub more_fragments: u1,
    /// In units of 8 bytes.
    pub offset: u13,
}

impl Fragment {
    /// The fields of these 16 bits.
    pub fn decode(word: u16) -> Fragment
        ensures reserved { result.reserved ≡ field word 15 1 }
        ensures dont_fragment { result.dont_fragment ≡ field word 14 1 }
        ensures more_fragments { result.more_fragments ≡ field word 13 1 }
        ensures offset { result.offset ≡ field word 0 13 }
    {
        Fragment {
            reserved: u1::extract_u16(word, 15),
            dont_fragment: u1::extract_u16(word, 14),
            more_fragments: u1::extract_u16(word, 13),
            offset: u13::extract_u16(word, 0),
        }
    }

    /// The 16 bits that have these fields.
    pub fn encode(self) -> u16
        ensures reserved { field result 15 1 ≡ self.reserved }
        ensures dont_fragment { field result 14 1 ≡ self.dont_fragment }
        ensures more_fragments { field result 13 1 ≡ self.more_fragments }
        ensures offset { field result 0 13 ≡ self.offset }
    {
        (u16::from_(self.reserved) << 15)
            + (u16::from_(self.dont_fragment) << 14)
            + (u16::from_(self.more_fragments) << 13)
            + u16::from_(self.offset)
    }

    /// Where the fragment's first byte lies.
    pub fn first_byte(self) -> UInt<u16, 16>
        ensures { result ≡ pos 8 *ℤ self.offset }
    {
        self.offset.widen::<16>() * UInt::<u16, 16>::new(8)
    }
}

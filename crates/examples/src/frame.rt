//! A frame of five bytes in network order, highest byte first, with two samples of a device.
//!
//! | Bits     | Field         | Type  |
//! |----------|---------------|-------|
//! | 29 to 39 | identifier    | `u11` |
//! | 24 to 27 | length        | `u4`  |
//! | 12 to 23 | first sample  | `i12` |
//! | 0 to 11  | second sample | `i12` |
//!
//! Bit 28 is reserved. Reading ignores it, and writing sets it to 0.

ghost use Rattle.std.specs.Prelude.{◌≡◌, ◌+ℤ◌, ◌*ℤ◌, ◌^◌, pos, true, false};
ghost use Rattle.arbitrary_int.specs.Residue.{wrap};
ghost use Rattle.arbitrary_int.specs.Field.{field};
ghost use Rattle.examples.specs.Network.{network_number};

use arbitrary_int::prelude::*;

/// What a frame says.
#[derive(Clone, Copy, Debug, PartialEq, Eq)]
pub struct Frame {
    /// Which device sends.
    pub identifier: u11,
    /// How many bytes of samples follow.
    pub length: u4,
    pub first: i12,
    pub second: i12,
}

impl Frame {
    /// The fields of a frame's bytes.
    pub fn decode(bytes: [u8; 5]) -> Frame
        ensures identifier { result.identifier ≡ field (network_number bytes) 29 11 }
        ensures length { result.length ≡ field (network_number bytes) 24 4 }
        ensures first { result.first ≡ wrap true 12 (field (network_number bytes) 12 12) }
        ensures second { result.second ≡ wrap true 12 (field (network_number bytes) 0 12) }
    {
        let word = u64::from_(u40::from_be_bytes(bytes));
        Frame {
            identifier: u11::extract_u64(word, 29),
            length: u4::extract_u64(word, 24),
            first: i12::masked_new(u12::extract_u64(word, 12)),
            second: i12::masked_new(u12::extract_u64(word, 0)),
        }
    }

    /// The bytes that have these fields.
    // No two fields share a bit, so the sum puts them side by side.
    pub fn encode(self) -> [u8; 5]
        ensures { pos (network_number result)
            ≡ pos (2 ^ 29) *ℤ self.identifier +ℤ pos (2 ^ 24) *ℤ self.length
            +ℤ pos (2 ^ 12) *ℤ wrap false 12 self.first +ℤ wrap false 12 self.second }
    {
        let word = (u64::from_(self.identifier) << 29)
            + (u64::from_(self.length) << 24)
            + (u64::from_(self.first.to_unsigned()) << 12)
            + u64::from_(self.second.to_unsigned());
        u40::new(word).to_be_bytes()
    }
}

/// What is received is what was sent.
pub fn sent_and_received(frame: Frame) -> Frame
    ensures { result ≡ frame }
{
    Frame::decode(frame.encode())
}

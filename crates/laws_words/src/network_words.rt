//! Words of network headers with constant masks and shifts.
#![tactic(auto, using(arbitrary_laws::proofs::Sets::words))]

ghost use Rattle.std.specs.Prelude.{◌≡◌, ◌↔◌, ◌/◌, ◌%◌, ◌*◌, ◌+◌, ◌<◌, IsTrue};

/// The offset and the flags of TCP.
pub fn tcp_offset_and_flags(offset: u16, flags: u16) -> u16
    requires offset_fits { offset < 16 }
    ensures offset { result / 4096 ≡ offset }
    ensures flags { result % 512 ≡ flags % 512 }
{
    (offset << 12) | (flags & 0x1FF)
}

/// Whether a segment opens a connection.
pub fn syn_without_ack(flags: u8) -> bool
    ensures { IsTrue result ↔ ((flags / 2 % 2 ≡ 1) × (flags / 16 % 2 ≡ 0)) }
{
    flags & 0x12 == 0x02
}

/// The fourth word of a header of TCP.
pub fn tcp_word(offset: u8, flags: u16, window: u16) -> u32
    ensures { result ≡ offset % 16 * 268435456 + flags % 512 * 65536 + window }
{
    ((u32::from(offset) & 0xF) << 28) | ((u32::from(flags) & 0x1FF) << 16) | u32::from(window)
}

/// The high byte of an identifier in a controller's register.
pub fn sidh(identifier: u16) -> u8
    ensures { result ≡ identifier / 8 % 256 }
{
    ((identifier >> 3) & 0xFF) as u8
}

/// The halves of a word exchanged.
pub fn swap_halves(word: u32) -> u32
    ensures { result ≡ word % 65536 * 65536 + word / 65536 }
{
    (word << 16) | (word >> 16)
}

/// A rotation by a written amount.
pub fn rotated(word: u16) -> u16
    ensures { result ≡ word % 2048 * 32 + word / 2048 }
{
    word.rotate_left(5)
}

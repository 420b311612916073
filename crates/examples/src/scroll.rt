//! The scroll registers of a video chip: a current address and a latch, of 15 bits each, with fields that are
//! copied and written.
#![tactic(auto, using(arbitrary_laws::proofs::Sets::words))]

ghost use Rattle.std.specs.Prelude.{◌≡◌, ◌/◌, ◌%◌, ◌*◌, ◌+◌};

/// The column.
pub fn coarse_x(v: u16) -> u16
    ensures { result ≡ v % 32 }
{
    v & 0x1F
}

/// Takes the column and the horizontal name table from the latch.
pub fn copy_horizontal(v: u16, t: u16) -> u16
    ensures column { result % 32 ≡ t % 32 }
    ensures name_table { result / 1024 % 2 ≡ t / 1024 % 2 }
    ensures row { result / 32 % 32 ≡ v / 32 % 32 }
    ensures above { result / 2048 ≡ v / 2048 }
{
    (v & !0x041F) | (t & 0x041F)
}

/// Takes the row, the line and the vertical name table from the latch.
pub fn copy_vertical(v: u16, t: u16) -> u16
    ensures column { result % 32 ≡ v % 32 }
    ensures row { result / 32 % 32 ≡ t / 32 % 32 }
    ensures line { result / 4096 % 8 ≡ t / 4096 % 8 }
{
    (v & 0x841F) | (t & 0x7BE0)
}

/// The first write of the scroll register: the column.
pub fn scroll_x(t: u16, d: u8) -> u16
    ensures column { result % 32 ≡ d / 8 }
    ensures rest { result / 32 ≡ t / 32 }
{
    (t & 0xFFE0) | u16::from(d >> 3)
}

/// The second write of the scroll register: the line and the row.
pub fn scroll_y(t: u16, d: u8) -> u16
    ensures line { result / 4096 % 8 ≡ d % 8 }
    ensures row { result / 32 % 32 ≡ d / 8 }
    ensures name_table { result / 1024 % 4 ≡ t / 1024 % 4 }
{
    (t & 0x8C1F) | ((u16::from(d) & 7) << 12) | ((u16::from(d) & 0xF8) << 2)
}

/// The first write of the address register: the high byte.
pub fn address_high(t: u16, d: u8) -> u16
    ensures high { result / 256 ≡ d % 64 }
    ensures low { result % 256 ≡ t % 256 }
{
    (t & 0x00FF) | ((u16::from(d) & 0x3F) << 8)
}

/// The address of the tile.
pub fn tile_address(v: u16) -> u16
    ensures { result ≡ 8192 + v % 4096 }
{
    0x2000 | (v & 0x0FFF)
}

/// The address of the tile's attributes.
pub fn attribute(v: u16) -> u16
    ensures { result ≡ 9152 + v / 1024 % 4 * 1024 + v / 128 % 8 * 8 + v / 4 % 8 }
{
    0x23C0 | (v & 0x0C00) | ((v >> 4) & 0x38) | ((v >> 2) & 7)
}

/// Clears the column and turns the horizontal name table over.
pub fn turned(v: u16) -> u16
    ensures low { result % 32 ≡ 0 }
    ensures middle { result / 32 % 32 ≡ v / 32 % 32 }
{
    (v & !0x1F) ^ 0x400
}

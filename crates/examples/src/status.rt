//! The flags of a processor: what a result and a shift set in the status byte.
#![tactic(auto, using(arbitrary_laws::proofs::Sets::words))]

ghost use Rattle.std.specs.Prelude.{◌≡◌, ◌≢◌, ◌↔◌, ◌/◌, ◌%◌, ◌*◌, ◌+◌, ◌<◌, ◌≤◌, IsTrue, if◌then◌else◌};

/// The status after a result: its sign, and whether it is 0. The other flags stay.
pub fn negative_and_zero(status: u8, value: u8) -> u8
    ensures negative { result / 128 ≡ value / 128 }
    ensures rest { result / 4 % 32 ≡ status / 4 % 32 }
    ensures carry { result % 2 ≡ status % 2 }
    ensures zero { result / 2 % 2 ≡ 1 ↔ value ≡ 0 }
{
    let zero = if value == 0 { 2 } else { 0 };
    (status & !0x82) | (value & 0x80) | zero
}

/// Moves the highest bit of a byte into the carry.
pub fn shift_left_carry(value: u8, status: u8) -> u8
    ensures carry { result % 2 ≡ value / 128 }
    ensures rest { result / 2 ≡ status / 2 }
{
    (status & 0xFE) | (value >> 7)
}

/// A byte moved up by one place, with the carry below.
pub fn rotate_in(value: u8, carry: u8) -> u8
    requires carry_fits { carry < 2 }
    ensures { result ≡ value % 128 * 2 + carry }
{
    (value << 1) | carry
}

/// A byte moved down by one place, with the carry above.
pub fn rotate_right_in(value: u8, carry: u8) -> u8
    requires carry_fits { carry < 2 }
    ensures { result ≡ carry * 128 + value / 2 }
{
    (carry << 7) | (value >> 1)
}

/// A byte and a carry in front, rotated up by one place.
pub fn rotate_with_carry(word: u16) -> u16
    requires word_fits { word < 512 }
    ensures { result ≡ word % 256 * 2 + word / 256 }
{
    ((word << 1) | (word >> 8)) & 0x1FF
}

/// A byte and a carry in front, rotated down by one place.
pub fn rotate_right_with_carry(word: u16) -> u16
    requires word_fits { word < 512 }
    ensures { result ≡ word / 2 + word % 2 * 256 }
{
    (word >> 1) | ((word & 1) << 8)
}

/// Whether the low halves carry.
pub fn half_carry(a: u8, b: u8) -> bool
    ensures { IsTrue result ↔ (16 ≤ (a % 16 + b % 16)) }
{
    (a & 0xF) + (b & 0xF) > 0xF
}

/// Whether the sum of two bytes passes the range of a signed byte.
#[tactic(auto, using(arbitrary_laws::proofs::Sets::overflow_flags))]
pub fn overflows(a: u8, b: u8) -> bool
    ensures { IsTrue result ↔ ((a / 128 ≡ b / 128) × ((a + b) % 256 / 128 ≢ a / 128)) }
{
    let sum = a.wrapping_add(b);
    (a ^ sum) & (b ^ sum) & 0x80 != 0
}

/// The status byte of six flags.
pub fn flags_packed(n: bool, v: bool, d: bool, i: bool, z: bool, c: bool) -> u8
    ensures sign { result / 128 ≡ (if n then 1 else 0) }
    ensures carry { result % 2 ≡ (if c then 1 else 0) }
{
    (u8::from(n) << 7)
        | (u8::from(v) << 6)
        | 0x20
        | (u8::from(d) << 3)
        | (u8::from(i) << 2)
        | (u8::from(z) << 1)
        | u8::from(c)
}

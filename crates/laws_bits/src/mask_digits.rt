//! Several flags under a constant mask, tested at once, with contracts in quotients and remainders.
#![tactic(auto, using(arbitrary_laws::proofs::Sets::words))]

ghost use Rattle.std.specs.Prelude.{◌≡◌, ◌↔◌, ◌<◌, ◌+◌, ◌*◌, ◌/◌, ◌%◌, pos, unsigned_abs, IsTrue};

use arbitrary_int::prelude::*;

pub fn both_set(flags: u9) -> bool
    ensures { IsTrue result
        ↔ ((unsigned_abs flags / 2 % 2 ≡ 1) × (unsigned_abs flags / 16 % 2 ≡ 1)) }
{
    flags & u9::new(0x12) == u9::new(0x12)
}

pub fn both_set_in_a_register(status: u32) -> bool
    ensures { IsTrue result ↔ ((status / 8 % 2 ≡ 1) × (status / 1024 % 2 ≡ 1)) }
{
    status & 0x408 == 0x408
}

pub fn three_clear(status: u16) -> bool
    ensures { IsTrue result
        ↔ ((status / 2 % 2 ≡ 0) × (status / 16 % 2 ≡ 0) × (status / 32768 ≡ 0)) }
{
    status & 0x8012 == 0
}

pub fn any_of_two(status: u8) -> bool
    ensures { IsTrue result ↔ (0 < status / 2 % 2 + status / 64 % 2) }
{
    status & 0x42 != 0
}

pub fn digits_left_of_a_type(flags: u12) -> u12
    ensures { result ≡ pos (unsigned_abs flags / 4 % 2 * 4 + unsigned_abs flags / 2048 % 2 * 2048) }
{
    flags & u12::new(0x804)
}

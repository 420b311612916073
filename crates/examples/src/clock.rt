//! The registers of a real-time clock, which stores decimal digits of four bits each.
//!
//! | Bits   | Field   | Type   |
//! |--------|---------|--------|
//! | 7      | stopped | `bool` |
//! | 4 to 6 | tens    | `u3`   |
//! | 0 to 3 | units   | `u4`   |
#![tactic(auto, using(arbitrary_laws::proofs::fields::JoinedWords::joined_words))]

ghost use Rattle.std.specs.Prelude.{◌≡◌, ◌↔◌, ◌⊎◌, ◌<◌, ◌/◌, ◌%◌, ◌+ℤ◌, ◌*ℤ◌, ◌≤ℤ◌, ◌<ℤ◌, pos, IsTrue, IsNone, IfSome, if◌then◌else◌};

use arbitrary_int::prelude::*;

/// The register of the seconds.
#[derive(Clone, Copy, Debug, PartialEq, Eq)]
pub struct Seconds {
    /// Whether the clock is stopped.
    pub stopped: bool,
    pub tens: u3,
    pub units: u4,
}

impl Seconds {
    /// The fields of the register.
    pub fn read(register: u8) -> Seconds
        ensures stopped { IsTrue result.stopped ↔ (register / 128 ≡ 1) }
        ensures tens { result.tens ≡ pos (register / 16 % 8) }
        ensures units { result.units ≡ pos (register % 16) }
    {
        Seconds {
            stopped: register >> 7 == 1,
            tens: u3::extract_u8(register, 4),
            units: u4::extract_u8(register, 0),
        }
    }

    /// The register that has these fields.
    pub fn write(self) -> u8
        ensures { pos result ≡ pos (if self.stopped then 128 else 0) +ℤ pos 16 *ℤ self.tens
            +ℤ self.units }
    {
        (u8::from(self.stopped) << 7) | (self.tens.value() << 4) | self.units.value()
    }
}

/// What is read back is what was written.
pub fn written_and_read(seconds: Seconds) -> Seconds
    ensures { result ≡ seconds }
{
    Seconds::read(seconds.write())
}

/// Two decimal digits.
#[derive(Clone, Copy, Debug, PartialEq, Eq)]
pub struct Digits {
    pub tens: u4,
    pub units: u4,
}

impl Digits {
    /// The digits of a number, if two have it.
    pub fn of_number(number: u7) -> Option<Digits>
        ensures number { IfSome result (λ digits. number ≡ pos 10 *ℤ digits.tens +ℤ digits.units) }
        ensures units { IfSome result (λ digits. digits.units ≤ℤ pos 9) }
        ensures refused { IsNone result ↔ (pos 99 <ℤ number) }
    {
        if number > u7::new(99) {
            return None;
        }
        Some(Digits {
            tens: u4::new(number.value() / 10),
            units: u4::new(number.value() % 10),
        })
    }

    /// The number of these digits. Digits above 9 count as they are.
    pub fn number(self) -> u8
        ensures { pos result ≡ pos 10 *ℤ self.tens +ℤ self.units }
    {
        self.tens.value() * 10 + self.units.value()
    }

    /// The digits of a register, if both are decimal.
    pub fn read(register: u8) -> Option<Digits>
        ensures register { IfSome result
            (λ digits. pos register ≡ pos 16 *ℤ digits.tens +ℤ digits.units) }
        ensures tens { IfSome result (λ digits. digits.tens ≤ℤ pos 9) }
        ensures units { IfSome result (λ digits. digits.units ≤ℤ pos 9) }
        ensures refused { IsNone result ↔ ((9 < register / 16) ⊎ (9 < register % 16)) }
    {
        let tens = u4::extract_u8(register, 4);
        let units = u4::extract_u8(register, 0);
        if tens > u4::new(9) || units > u4::new(9) {
            None
        } else {
            Some(Digits { tens, units })
        }
    }

    /// The register that has these digits.
    pub fn write(self) -> u8
        ensures { pos result ≡ pos 16 *ℤ self.tens +ℤ self.units }
    {
        (self.tens.value() << 4) | self.units.value()
    }

    /// Increments the register, from 59 to 0, and returns whether it did the latter.
    pub fn go_on(&mut self) -> bool
        ensures units { self.old.units <ℤ pos 9 → self.new.units ≡ self.old.units +ℤ pos 1 }
        ensures tens { self.old.units <ℤ pos 9 → self.new.tens ≡ self.old.tens }
        ensures ten { pos 9 ≤ℤ self.old.units → self.new.units ≡ pos 0 }
        ensures next { pos 9 ≤ℤ self.old.units → self.old.tens <ℤ pos 5
            → self.new.tens ≡ self.old.tens +ℤ pos 1 }
        ensures start { pos 9 ≤ℤ self.old.units → pos 5 ≤ℤ self.old.tens → self.new.tens ≡ pos 0 }
        ensures round { IsTrue result ↔ ((pos 9 ≤ℤ self.old.units) × (pos 5 ≤ℤ self.old.tens)) }
    {
        if self.units < u4::new(9) {
            self.units += u4::new(1);
            return false;
        }
        self.units = u4::new(0);
        if self.tens < u4::new(5) {
            self.tens += u4::new(1);
            return false;
        }
        self.tens = u4::new(0);
        true
    }
}

/// The sum of two digits and a carry: its digit, and the next carry.
pub fn added(a: u4, b: u4, carry: bool) -> (u4, bool)
    requires a { a ≤ℤ pos 9 }
    requires b { b ≤ℤ pos 9 }
    ensures sum { result.0 +ℤ pos (if result.1 then 10 else 0)
        ≡ a +ℤ b +ℤ pos (if carry then 1 else 0) }
    ensures digit { result.0 ≤ℤ pos 9 }
{
    let sum = u5::from_(a) + u5::from_(b) + u5::new(u8::from(carry));
    if sum > u5::new(9) {
        (u4::from_(sum - u5::new(10)), true)
    } else {
        (u4::from_(sum), false)
    }
}

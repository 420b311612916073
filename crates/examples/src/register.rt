//! The control register of a timer: a word of 32 bits whose fields are integers of their own width.
//!
//! | Bits    | Field     | Type  |
//! |---------|-----------|-------|
//! | 0       | enable    | `u1`  |
//! | 1 to 3  | prescaler | `u3`  |
//! | 4 and 5 | mode      | `u2`  |
//! | 8 to 21 | reload    | `u14` |
//!
//! The other bits are reserved. Reading ignores them, and writing sets them to 0.

ghost use Rattle.std.specs.Prelude.{◌≡◌, ◌+ℤ◌, ◌*ℤ◌, pos};
ghost use Rattle.arbitrary_int.specs.Field.{field};

use arbitrary_int::prelude::*;

/// What the register says.
#[derive(Clone, Copy, Debug, PartialEq, Eq)]
pub struct Control {
    /// 1 where the timer runs.
    pub enable: u1,
    /// The timer counts every `2 ^ prescaler` cycles.
    pub prescaler: u3,
    pub mode: u2,
    /// From where the timer counts down.
    pub reload: u14,
}

impl Control {
    /// The fields of the register's word.
    pub fn read(register: u32) -> Control
        ensures enable { result.enable ≡ field register 0 1 }
        ensures prescaler { result.prescaler ≡ field register 1 3 }
        ensures mode { result.mode ≡ field register 4 2 }
        ensures reload { result.reload ≡ field register 8 14 }
    {
        Control {
            enable: u1::extract_u32(register, 0),
            prescaler: u3::extract_u32(register, 1),
            mode: u2::extract_u32(register, 4),
            reload: u14::extract_u32(register, 8),
        }
    }

    /// The register's word that has these fields.
    // No two fields share a bit, so the sum puts them side by side.
    pub fn word(self) -> u32
        ensures { pos result ≡ self.enable +ℤ pos 2 *ℤ self.prescaler +ℤ pos 16 *ℤ self.mode
            +ℤ pos 256 *ℤ self.reload }
    {
        u32::from_(self.enable)
            + (u32::from_(self.prescaler) << 1)
            + (u32::from_(self.mode) << 4)
            + (u32::from_(self.reload) << 8)
    }
}

/// What is read back is what was written.
pub fn written_and_read(control: Control) -> Control
    ensures { result ≡ control }
{
    Control::read(control.word())
}

/// The register with the timer running from `reload`. Prescaler and mode stay.
pub fn started(register: u32, reload: u14) -> u32
    ensures enable { field result 0 1 ≡ pos 1 }
    ensures prescaler { field result 1 3 ≡ field register 1 3 }
    ensures mode { field result 4 2 ≡ field register 4 2 }
    ensures reload { field result 8 14 ≡ reload }
{
    let control = Control {
        enable: u1::new(1),
        reload,
        ..Control::read(register)
    };
    control.word()
}

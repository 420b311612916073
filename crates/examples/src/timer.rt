//! The timer's control register as a record whose fields are read and written one by one. Its reserved bits do not change.

ghost use Rattle.std.specs.Prelude.{◌≡◌, pos, false};
ghost use Rattle.bit_fields.specs.BitField.{field_bits};
ghost use Rattle.arbitrary_int.specs.BitList.{val};

use crate::register::Control;
use arbitrary_int::prelude::*;
use bit_fields::Record;

/// The register's fields.
pub fn read(register: &Record) -> Control
    ensures enable { result.enable ≡ val false (field_bits register.now.bits 0 1) }
    ensures prescaler { result.prescaler ≡ val false (field_bits register.now.bits 1 3) }
    ensures mode { result.mode ≡ val false (field_bits register.now.bits 4 2) }
    ensures reload { result.reload ≡ val false (field_bits register.now.bits 8 14) }
{
    Control {
        enable: register.get(0),
        prescaler: register.get(1),
        mode: register.get(4),
        reload: register.get(8),
    }
}

/// Writes the register's fields.
pub fn write(control: Control, register: &mut Record)
    ensures enable { val false (field_bits register.new.bits 0 1) ≡ control.enable }
    ensures prescaler { val false (field_bits register.new.bits 1 3) ≡ control.prescaler }
    ensures mode { val false (field_bits register.new.bits 4 2) ≡ control.mode }
    ensures reload { val false (field_bits register.new.bits 8 14) ≡ control.reload }
    ensures reserved { field_bits register.new.bits 6 2 ≡ field_bits register.old.bits 6 2 }
    ensures above { field_bits register.new.bits 22 106 ≡ field_bits register.old.bits 22 106 }
{
    register.put(0, control.enable);
    register.put(1, control.prescaler);
    register.put(4, control.mode);
    register.put(8, control.reload);
}

/// What is read back is what was written.
pub fn written_and_read(control: Control, register: &mut Record) -> Control
    ensures { result ≡ control }
{
    write(control, register);
    read(register)
}

/// Starts the timer from `reload`. The other fields stay.
pub fn start(register: &mut Record, reload: u14)
    ensures enable { val false (field_bits register.new.bits 0 1) ≡ pos 1 }
    ensures between { field_bits register.new.bits 1 7 ≡ field_bits register.old.bits 1 7 }
    ensures reload { val false (field_bits register.new.bits 8 14) ≡ reload }
    ensures above { field_bits register.new.bits 22 106 ≡ field_bits register.old.bits 22 106 }
{
    register.put(0, u1::new(1));
    register.put(8, reload);
}

//! Words of instructions whose constant has ones on both sides of a field.
#![tactic(auto, using(arbitrary_laws::proofs::Sets::words))]

ghost use Rattle.std.specs.Prelude.{◌≡◌, ◌+ℤ◌, ◌*ℤ◌, pos, IsTrue};

use arbitrary_int::prelude::*;

/// The byte of a conditional jump of the 8080: `11ccc010`.
pub fn jump(condition: u3) -> u8
    ensures { pos result ≡ pos 194 +ℤ condition *ℤ pos 8 }
{
    0xC2 | (condition.value() << 3)
}

pub fn condition_read_back(condition: u3) -> u3
    ensures { result ≡ condition }
{
    let opcode = 0xC2 | (condition.value() << 3);
    u3::new((opcode >> 3) & 7)
}

/// `11vvv111`.
pub fn is_restart(vector: u3) -> bool
    ensures { IsTrue result }
{
    let opcode = 0xC7 | (vector.value() << 3);
    opcode & 7 == 7 && opcode >> 6 == 3
}

//! The decoder of a small processor, and a step of its machine.

ghost use Rattle.std.specs.Prelude.{◌≡◌, ◌≢◌, ◌+ℤ◌, pos};
ghost use Rattle.arbitrary_int.specs.Field.{field};
ghost use Rattle.arbitrary_int.specs.Residue.{Congruent};

use arbitrary_int::prelude::*;

/// The fields of an instruction word.
#[derive(Clone, Copy, Debug, PartialEq, Eq)]
pub struct Instruction {
    /// What is done: 0 adds to a register, 1 jumps, and anything else does nothing.
    pub operation: u4,
    /// The register that is written.
    pub target: u4,
    /// What is added, to the register or to the counter.
    pub amount: i9,
}

/// Reads the fields of an instruction word: the operation in the highest four bits, then the target, and the
/// amount in the lowest nine.
pub fn decode(word: u32) -> Instruction
    ensures operation { result.operation ≡ field word 28 4 }
    ensures target { result.target ≡ field word 24 4 }
    ensures amount { Congruent 9 result.amount (pos word) }
{
    Instruction {
        operation: u4::extract_u32(word, 28),
        target: u4::extract_u32(word, 24),
        amount: i9::extract_u32(word, 0),
    }
}

/// The counter, moved by an amount. It wraps round.
pub fn moved(counter: u12, amount: i9) -> u12
    ensures { Congruent 12 result (counter +ℤ amount) }
{
    counter.wrapping_add(amount.as_::<u12>())
}

/// The register, with an amount added. It wraps round.
pub fn added(register: u32, amount: i9) -> u32
    ensures { Congruent 32 (pos result) (pos register +ℤ amount) }
{
    register.wrapping_add(amount.as_u32())
}

/// The counter and the registers.
pub struct Machine {
    pub counter: u12,
    pub registers: [u32; 16],
}

impl Machine {
    /// Executes one instruction. The counter is then at the next one, or at the target of the jump.
    pub fn step(&mut self, instruction: Instruction)
        ensures jump { instruction.operation ≡ pos 1
            → Congruent 12 self.new.counter (self.old.counter +ℤ instruction.amount) }
        ensures next { instruction.operation ≢ pos 1
            → Congruent 12 self.new.counter (self.old.counter +ℤ pos 1) }
    {
        let place = instruction.target.as_usize();
        match instruction.operation.value() {
            0 => {
                self.registers[place] = added(self.registers[place], instruction.amount);
                self.counter = self.counter.wrapping_add(u12::new(1));
            }
            1 => self.counter = moved(self.counter, instruction.amount),
            _ => self.counter = self.counter.wrapping_add(u12::new(1)),
        }
    }
}

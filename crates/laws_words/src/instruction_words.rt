//! Instructions of RISC-V and ARM, encoded and decoded with constant masks and shifts.
#![tactic(auto, using(arbitrary_laws::proofs::Sets::words))]

ghost use Rattle.std.specs.Prelude.{◌≡◌, ◌/◌, ◌%◌, ◌*◌, ◌+◌, ◌<◌, ◌*ℤ◌, ◌+ℤ◌, pos};

use arbitrary_int::prelude::*;

/// The distance of a branch, without its sign.
pub fn b_immediate(word: u32) -> u32
    ensures { result ≡ word / 2147483648 * 4096 + word / 128 % 2 * 2048
        + word / 33554432 % 64 * 32 + word / 256 % 16 * 2 }
{
    ((word >> 31) << 12)
        | (((word >> 7) & 1) << 11)
        | (((word >> 25) & 0x3F) << 5)
        | (((word >> 8) & 0xF) << 1)
}

/// Writes the number of a store.
pub fn s_type(immediate: u32, base: u32) -> u32
    ensures low { result / 128 % 32 ≡ immediate % 32 }
    ensures high { result / 33554432 ≡ immediate / 32 % 128 }
    ensures rest { result % 128 ≡ base % 128 }
{
    (base & 0x01FF_F07F) | ((immediate & 0xFE0) << 20) | ((immediate & 0x1F) << 7)
}

/// Writes the destination register.
pub fn i_type_rd(word: u32, rd: u32) -> u32
    ensures rd { result / 128 % 32 ≡ rd % 32 }
    ensures low { result % 128 ≡ word % 128 }
    ensures high { result / 4096 ≡ word / 4096 }
{
    (word & !0xF80) | ((rd & 0x1F) << 7)
}

/// An instruction with the opcode first and the fields upward.
pub fn opcode_first(rd: u32, funct3: u32, rs1: u32, immediate: u32) -> u32
    requires rd_fits { rd < 32 }
    requires funct3_fits { funct3 < 8 }
    requires rs1_fits { rs1 < 32 }
    requires immediate_fits { immediate < 4096 }
    ensures { result ≡ 19 + rd * 128 + funct3 * 4096 + rs1 * 32768 + immediate * 1048576 }
{
    0x13 | (rd << 7) | (funct3 << 12) | (rs1 << 15) | (immediate << 20)
}

/// An instruction of ARM with an immediate operand.
pub fn arm_data(cond: u32, opcode: u32, s: u32, rn: u32, rd: u32, operand: u32) -> u32
    requires cond_fits { cond < 16 }
    requires opcode_fits { opcode < 16 }
    requires s_fits { s < 2 }
    requires rn_fits { rn < 16 }
    requires rd_fits { rd < 16 }
    requires operand_fits { operand < 4096 }
    ensures { result ≡ cond * 268435456 + 33554432 + opcode * 2097152 + s * 1048576
        + rn * 65536 + rd * 4096 + operand }
{
    (cond << 28) | (1 << 25) | (opcode << 21) | (s << 20) | (rn << 16) | (rd << 12) | operand
}

/// Writes the register that a load reads from.
pub fn with_base(word: u32, base: u5) -> u32
    ensures low { result % 32768 ≡ word % 32768 }
    ensures base { pos (result / 32768 % 32) ≡ base }
    ensures high { result / 1048576 ≡ word / 1048576 }
{
    (word & !(0x1F << 15)) | (base.as_u32() << 15)
}

/// The byte of the operands of an instruction of x86.
pub fn operands(mode: u2, register: u3, memory: u3) -> u8
    ensures { pos result ≡ mode *ℤ pos 64 +ℤ register *ℤ pos 8 +ℤ memory }
{
    (mode.value() << 6) | (register.value() << 3) | memory.value()
}

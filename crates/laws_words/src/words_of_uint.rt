//! Words of a `UInt` with constant masks and shifts. The contracts are in quotients and remainders.
#![tactic(auto, using(arbitrary_laws::proofs::Sets::uint_words))]

ghost use Rattle.std.specs.Prelude.{◌≡◌, ◌↔◌, ◌%◌, ◌+ℤ◌, ◌*ℤ◌, ◌<ℤ◌, pos, int_rem, int_div, IsTrue};

use arbitrary_int::prelude::*;

/// Fields of two sources under a mask with a hole.
pub fn rebuilt(v: u15, t: u15) -> u15
    ensures low { int_rem result (pos 32) ≡ int_rem t (pos 32) }
    ensures middle { int_rem (int_div result (pos 32)) (pos 32)
        ≡ int_rem (int_div v (pos 32)) (pos 32) }
{
    (v & !u15::new(0x041F)) | (t & u15::new(0x041F))
}

/// Clears a field and turns a bit over.
#[tactic(auto, using(arbitrary_laws::proofs::Sets::words))]
pub fn turned(v: u15) -> u15
    ensures low { int_rem result (pos 32) ≡ pos 0 }
    ensures middle { int_rem (int_div result (pos 32)) (pos 32)
        ≡ int_rem (int_div v (pos 32)) (pos 32) }
    ensures flag { (int_rem (int_div result (pos 1024)) (pos 2)
        +ℤ int_rem (int_div v (pos 1024)) (pos 2)) ≡ pos 1 }
    ensures high { int_div result (pos 2048) ≡ int_div v (pos 2048) }
{
    (v & !u15::new(0x1F)) ^ u15::new(0x400)
}

/// A field under a mask.
pub fn field(v: u24) -> u24
    ensures { result ≡ int_rem (int_div v (pos 16)) (pos 256) *ℤ pos 16 }
{
    v & u24::new(0xFF0)
}

/// Writes a field from a value under a mask.
pub fn name_table(t: u15, value: u8) -> u15
    ensures field { int_rem (int_div result (pos 1024)) (pos 4) ≡ pos (value % 4) }
    ensures low { int_rem result (pos 1024) ≡ int_rem t (pos 1024) }
{
    (t & !u15::new(0x0C00)) | (u15::from_(value & 3) << 10)
}

/// A field that moves up, and one below it.
pub fn cell(x: u12, y: u5) -> u12
    requires { x <ℤ pos 1024 }
    ensures { result ≡ int_div x (pos 8) *ℤ pos 32 +ℤ y }
{
    ((x >> 3) << 5) | u12::from_(y)
}

/// Writes the field whose low bits two shifts clear.
pub fn with_low(x: u20, y: u6) -> u20
    ensures low { int_rem result (pos 64) ≡ y }
    ensures high { int_div result (pos 64) ≡ int_div x (pos 64) }
{
    ((x >> 6) << 6) | u20::from_(y)
}

/// Three fields.
pub fn three(a: u4, b: u3, c: u5) -> u12
    ensures { result ≡ a *ℤ pos 256 +ℤ b *ℤ pos 32 +ℤ c }
{
    (u12::from_(a) << 8) | (u12::from_(b) << 5) | u12::from_(c)
}

/// A byte and a carry in front, rotated up by one place.
#[tactic(auto, using(arbitrary_laws::proofs::Sets::words))]
pub fn rotated_with_carry(word: u9) -> u9
    ensures { result ≡ int_rem word (pos 256) *ℤ pos 2 +ℤ int_div word (pos 256) }
{
    (word << 1) | (word >> 8)
}

/// Writes a field behind `&mut`.
pub fn in_place(v: &mut u15, x: u5)
    ensures low { int_rem v.new (pos 32) ≡ x }
{
    *v = (*v & !u15::new(0x1F)) | u15::from_(x);
}

/// Writes a field by assigning operators.
pub fn assigning(v: &mut u15, x: u3)
    ensures { int_rem (int_div v.new (pos 4096)) (pos 8) ≡ x }
{
    *v &= !u15::new(0x7000);
    *v |= u15::from_(x) << 12;
}

/// Reads a field behind `&`.
pub fn fine_y(v: &u15) -> u3
    ensures { result ≡ int_div v.now (pos 4096) }
{
    u3::new((*v >> 12).value() as u8)
}

/// Whether a flag is set.
pub fn tested(v: u15) -> bool
    ensures { IsTrue result ↔ (int_rem (int_div v (pos 1024)) (pos 2) ≡ pos 1) }
{
    v & u15::new(0x400) != u15::new(0)
}

/// Writes the lowest field from a number of its own width. The others stay.
pub fn coarse(v: u15, x: u5) -> u15
    ensures low { int_rem result (pos 32) ≡ x }
    ensures high { int_div result (pos 32) ≡ int_div v (pos 32) }
{
    (v & !u15::new(0x1F)) | u15::from_(x)
}

/// Writes a field further up.
pub fn middle(v: u24, x: u4) -> u24
    ensures field { int_rem (int_div result (pos 256)) (pos 16) ≡ x }
    ensures low { int_rem result (pos 256) ≡ int_rem v (pos 256) }
{
    (v & !u24::new(0xF00)) | (u24::from_(x) << 8)
}

/// Whether two addresses are in one page of 64.
pub fn same_page(a: u12, b: u12) -> bool
    ensures { IsTrue result ↔ (int_div a (pos 64) ≡ int_div b (pos 64)) }
{
    (a ^ b) & u12::new(0xFC0) == u12::new(0)
}

/// The middle field of another word, merged without a second mask.
#[tactic(auto, using(arbitrary_laws::proofs::Sets::words))]
pub fn merged(word: u24, field: u24) -> u24
    ensures low { int_rem result (pos 16) ≡ int_rem word (pos 16) }
    ensures middle { int_rem (int_div result (pos 16)) (pos 256)
        ≡ int_rem (int_div field (pos 16)) (pos 256) }
    ensures high { int_div result (pos 4096) ≡ int_div word (pos 4096) }
{
    word ^ ((field ^ word) & u24::new(0xFF0))
}

/// Writes a register's number into an instruction.
#[tactic(auto, using(arbitrary_laws::proofs::words::JoinedReads::masked_reads))]
pub fn with_register(word: u28, register: u3) -> u28
    ensures field { int_rem (int_div result (pos 1024)) (pos 8) ≡ register }
    ensures low { int_rem result (pos 1024) ≡ int_rem word (pos 1024) }
    ensures high { int_div result (pos 8192) ≡ int_div word (pos 8192) }
{
    (word & !u28::new(0x1C00)) | (u28::from_(register) << 10)
}

/// The row and the line of one scroll register with the rest of another.
pub fn with_rows(v: u15, t: u15) -> u15
    ensures column { int_rem result (pos 32) ≡ int_rem v (pos 32) }
    ensures row { int_rem (int_div result (pos 32)) (pos 32)
        ≡ int_rem (int_div t (pos 32)) (pos 32) }
    ensures low_table { int_rem (int_div result (pos 1024)) (pos 2)
        ≡ int_rem (int_div v (pos 1024)) (pos 2) }
    ensures high_table { int_rem (int_div result (pos 2048)) (pos 2)
        ≡ int_rem (int_div t (pos 2048)) (pos 2) }
    ensures line { int_div result (pos 4096) ≡ int_div t (pos 4096) }
{
    (v & u15::new(0x041F)) | (t & u15::new(0x7BE0))
}

/// Whether two addresses are in one page of 4,096.
pub fn same_page_by_shift(a: u20, b: u20) -> bool
    ensures { IsTrue result ↔ (int_div a (pos 4096) ≡ int_div b (pos 4096)) }
{
    (a ^ b) >> 12 == u20::new(0)
}

/// A rotation by a written amount.
pub fn rotated(word: u9) -> u9
    ensures { result ≡ int_rem word (pos 128) *ℤ pos 4 +ℤ int_div word (pos 128) }
{
    word.rotate_left(2)
}

/// Four fields.
pub fn four_fields(a: u6, b: u6, c: u6, d: u6) -> u24
    ensures { result ≡ a *ℤ pos 262144 +ℤ b *ℤ pos 4096 +ℤ c *ℤ pos 64 +ℤ d }
{
    (u24::from_(a) << 18) | (u24::from_(b) << 12) | (u24::from_(c) << 6) | u24::from_(d)
}

/// Four fields of other widths.
pub fn frame_header(version: u3, kind: u5, flow: u4, length: u11) -> u23
    ensures { result ≡ version *ℤ pos 1048576 +ℤ kind *ℤ pos 32768 +ℤ flow *ℤ pos 2048
        +ℤ length }
{
    (u23::from_(version) << 20)
        | (u23::from_(kind) << 15)
        | (u23::from_(flow) << 11)
        | u23::from_(length)
}

/// Fields of two sources.
pub fn of_two_sources(a: u20, b: u20) -> u20
    ensures low { int_rem result (pos 16) ≡ int_rem b (pos 16) }
    ensures middle { int_rem (int_div result (pos 16)) (pos 64)
        ≡ int_rem (int_div a (pos 16)) (pos 64) }
    ensures high { int_div result (pos 1024) ≡ int_div b (pos 1024) }
{
    (a & u20::new(0x003F0)) | (b & !u20::new(0x003F0))
}

/// A field from masked bits of a byte.
pub fn from_byte(t: u13, value: u8) -> u13
    ensures field { int_rem (int_div result (pos 64)) (pos 8) ≡ pos (value % 8) }
    ensures low { int_rem result (pos 64) ≡ int_rem t (pos 64) }
    ensures high { int_div result (pos 512) ≡ int_div t (pos 512) }
{
    (t & !u13::new(0x01C0)) | (u13::from_(value & 7) << 6)
}

/// Sets a flag behind `&mut`.
pub fn enable(register: &mut u12)
    ensures flag { int_div register.new (pos 2048) ≡ pos 1 }
    ensures rest { int_rem register.new (pos 2048) ≡ int_rem register.old (pos 2048) }
{
    *register |= u12::new(0x800);
}

/// Clears the low field behind `&mut`.
pub fn clear_low(register: &mut u12)
    ensures low { int_rem register.new (pos 16) ≡ pos 0 }
    ensures high { int_div register.new (pos 16) ≡ int_div register.old (pos 16) }
{
    *register &= !u12::new(0xF);
}

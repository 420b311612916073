//! Words of fields, each made in one line.
#![tactic(auto, using(arbitrary_laws::proofs::Sets::fields))]

ghost use Rattle.std.specs.Prelude.{◌≡◌, ◌*◌, ◌/◌, ◌%◌, ◌+◌, ◌+ℤ◌, ◌*ℤ◌, pos, if◌then◌else◌, IsTrue};

use arbitrary_int::prelude::*;

/// The offset of a branch, whose lowest part is moved up too.
#[tactic(auto, using(arbitrary_laws::proofs::fields::JoinedFields::joined_fields))]
pub fn branch_offset(sign: u1, next: u1, high: u6, low: u4) -> u13
    ensures { result ≡ sign *ℤ pos 4096 +ℤ next *ℤ pos 2048 +ℤ high *ℤ pos 32 +ℤ low *ℤ pos 2 }
{
    (u13::from_(sign) << 12)
        | (u13::from_(next) << 11)
        | (u13::from_(high) << 5)
        | (u13::from_(low) << 1)
}

pub fn a_mark_between_two(x: u3, y: u2) -> u8
    ensures { pos result ≡ x *ℤ pos 32 +ℤ pos 16 +ℤ y }
{
    x.value() << 5 | 0x10 | y.value()
}

pub fn six_fields(op: u6, rs: u5, rt: u5, rd: u5, shift: u5, function: u6) -> u32
    ensures { pos result ≡ op *ℤ pos 67108864 +ℤ rs *ℤ pos 2097152 +ℤ rt *ℤ pos 65536
        +ℤ rd *ℤ pos 2048 +ℤ shift *ℤ pos 64 +ℤ function }
{
    op.as_u32() << 26
        | rs.as_u32() << 21
        | rt.as_u32() << 16
        | rd.as_u32() << 11
        | shift.as_u32() << 6
        | function.as_u32()
}

// ---- fields that `From` converts, at each storage

pub fn date(year: u7, month: u4, day: u5) -> u16
    ensures { pos result ≡ year *ℤ pos 512 +ℤ month *ℤ pos 32 +ℤ day }
{
    (u16::from(year) << 9) | (u16::from(month) << 5) | u16::from(day)
}

pub fn three_of_many(a: u41, b: u40, c: u40) -> u128
    ensures { pos result ≡ a *ℤ pos 1208925819614629174706176 +ℤ b *ℤ pos 1099511627776 +ℤ c }
{
    (u128::from(a) << 80) | (u128::from(b) << 40) | u128::from(c)
}

pub fn tag(priority: u3, eligible: bool, network: u12) -> u16
    ensures { pos result ≡ priority *ℤ pos 8192 +ℤ pos (if eligible then 4096 else 0) +ℤ network }
{
    u16::from(priority) << 13 | u16::from(eligible) << 12 | network.value()
}

pub fn pressure(high: u8, middle: u8, low: u8) -> u20
    ensures { result ≡ pos (high * 4096 + middle * 16 + low / 16) }
{
    u20::new((u32::from(high) << 12) | (u32::from(middle) << 4) | (u32::from(low) >> 4))
}

// ---- below a number that is written out, and read back

pub fn load_immediate(register: u4, byte: u8) -> u16
    ensures { pos result ≡ pos 57344 +ℤ pos (byte / 16 * 256) +ℤ register *ℤ pos 16
        +ℤ pos (byte % 16) }
{
    0xE000 | (u16::from(byte >> 4) << 8) | (u16::from(register) << 4) | u16::from(byte & 0x0F)
}

pub fn load_back(register: u4, byte: u8) -> bool
    ensures { IsTrue result }
{
    let word = 0x6000 | (u16::from(register) << 8) | u16::from(byte);
    u4::extract_u16(word, 8) == register && (word & 0xFF) as u8 == byte
}

pub fn switched_off(output: u5) -> u5
    ensures { result ≡ pos 0 }
{
    output & !output
}

pub fn mode_read_back(modes: u32, pin: u4, mode: u2) -> u2
    ensures { result ≡ mode }
{
    let place = pin.value() * 2;
    let written = (modes & !(0b11 << place)) | (u32::from(mode.value()) << place);
    u2::new(((written >> place) & 0b11) as u8)
}

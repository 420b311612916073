//! Registers of devices with constant masks and shifts: a UART, PCI, timers, page tables. The contracts are in
//! quotients and remainders.
#![tactic(auto, using(arbitrary_laws::proofs::Sets::words))]

ghost use Rattle.std.specs.Prelude.{◌≡◌, ◌↔◌, ◌/◌, ◌%◌, ◌*◌, ◌+◌, ◌<◌, IsTrue, if◌then◌else◌};

/// The line control register of a UART: the word's length, the stop bits and the parity.
pub fn lcr(length: u8, two_stops: u8, parity: u8) -> u8
    requires length_fits { length < 4 }
    requires two_stops_fits { two_stops < 2 }
    requires parity_fits { parity < 8 }
    ensures { result ≡ length + two_stops * 4 + parity * 8 }
{
    length | (two_stops << 2) | (parity << 3)
}

/// Opens the latch of the divisor.
pub fn set_dlab(lcr: u8) -> u8
    ensures set { result / 128 ≡ 1 }
    ensures rest { result % 128 ≡ lcr % 128 }
{
    lcr | 0x80
}

/// Whether one of the three bits of errors is set.
pub fn line_errors(lsr: u8) -> bool
    ensures { IsTrue result ↔ (0 < lsr / 2 % 8) }
{
    lsr & 0x0E != 0
}

/// Writes the level at which the queue raises an interrupt.
pub fn fifo_trigger(fcr: u8, level: u8) -> u8
    requires level_fits { level < 4 }
    ensures level { result / 64 ≡ level }
    ensures rest { result % 64 ≡ fcr % 64 }
{
    (fcr & 0x3F) | (level << 6)
}

/// Writes the prescaler of a timer.
pub fn prescaler(control: u32, value: u32) -> u32
    requires value_fits { value < 8 }
    ensures field { result / 4 % 8 ≡ value }
    ensures low { result % 4 ≡ control % 4 }
    ensures high { result / 32 ≡ control / 32 }
{
    (control & !(7 << 2)) | (value << 2)
}

/// Turns the lowest bit over.
pub fn toggle_enable(control: u32) -> u32
    ensures low { result % 2 + control % 2 ≡ 1 }
    ensures high { result / 2 ≡ control / 2 }
{
    control ^ 1
}

/// Writes a field behind `&mut`.
pub fn write_in_place(register: &mut u32, field: u32)
    ensures field { register.new / 16 % 16 ≡ field % 16 }
    ensures low { register.new % 16 ≡ register.old % 16 }
{
    *register = (*register & !0xF0) | ((field & 0xF) << 4);
}

/// The address of a word of PCI configuration.
pub fn config_address(bus: u8, device: u8, function: u8, offset: u8) -> u32
    requires device_fits { device < 32 }
    requires function_fits { function < 8 }
    ensures { result ≡ 2147483648 + bus * 65536 + device * 2048 + function * 256
        + offset / 4 * 4 }
{
    0x8000_0000
        | (u32::from(bus) << 16)
        | (u32::from(device) << 11)
        | (u32::from(function) << 8)
        | (u32::from(offset) & 0xFC)
}

/// The device of a bus, device and function.
pub fn bdf_device(bdf: u16) -> u16
    ensures { result ≡ bdf / 8 % 32 }
{
    (bdf >> 3) & 0x1F
}

/// Writes two fields at once.
pub fn two_fields(word: u32, a: u32, b: u32) -> u32
    requires a_fits { a < 16 }
    requires b_fits { b < 64 }
    ensures first { result / 16 % 16 ≡ a }
    ensures second { result / 1024 % 64 ≡ b }
    ensures low { result % 16 ≡ word % 16 }
    ensures high { result / 65536 ≡ word / 65536 }
{
    (word & 0xFFFF_030F) | (b << 10) | (a << 4)
}

/// Sets two bits.
pub fn set_bits(word: u32) -> u32
    ensures bits { result / 4 % 4 ≡ 3 }
    ensures low { result % 4 ≡ word % 4 }
    ensures high { result / 16 ≡ word / 16 }
{
    word | 0xC
}

/// An entry of a page table.
pub fn page_entry(frame: u64, flags: u64) -> u64
    requires frame_fits { frame < 1099511627776 }
    ensures { result ≡ frame * 4096 + flags % 4096 }
{
    (frame << 12) | (flags & 0xFFF)
}

/// A gate of interrupts: offset, selector and type.
pub fn gate(offset: u32, selector: u16) -> u64
    ensures { result ≡ offset / 65536 * 281474976710656 + 156130651144192 + selector * 65536
        + offset % 65536 }
{
    (u64::from(offset & 0xFFFF_0000) << 32)
        | (0x8E00 << 32)
        | (u64::from(selector) << 16)
        | u64::from(offset & 0xFFFF)
}

/// A color of 16 bits.
pub fn rgb565(red: u8, green: u8, blue: u8) -> u16
    ensures { result ≡ red / 8 * 2048 + green / 4 * 32 + blue / 8 }
{
    (u16::from(red & 0xF8) << 8) | (u16::from(green & 0xFC) << 3) | u16::from(blue >> 3)
}

/// Whether an address is a multiple of 16.
pub fn aligned(address: u64) -> bool
    ensures { IsTrue result ↔ (address % 16 ≡ 0) }
{
    address & 0xF == 0
}

/// The size, rounded up to a multiple of 8.
pub fn round_up(size: u32) -> u32
    requires size_fits { size < 4294967288 }
    ensures multiple { result % 8 ≡ 0 }
    ensures least { result / 8 ≡ (size + 7) / 8 }
{
    (size + 7) & !7
}

/// Writes a channel number, merged without a second mask.
pub fn merged_channel(control: u32, channel: u32) -> u32
    requires channel_fits { channel < 16 }
    ensures low { result % 256 ≡ control % 256 }
    ensures channel { result / 256 % 16 ≡ channel }
    ensures high { result / 4096 ≡ control / 4096 }
{
    control ^ ((control ^ (channel << 8)) & 0x0F00)
}

/// The control bits of one word with the data bits of another.
pub fn control_of(a: u32, b: u32) -> u32
    ensures low { result % 4 ≡ a % 4 }
    ensures second { result / 4 % 8 ≡ b / 4 % 8 }
    ensures third { result / 32 % 128 ≡ a / 32 % 128 }
    ensures fourth { result / 4096 % 16 ≡ b / 4096 % 16 }
    ensures high { result / 65536 ≡ a / 65536 }
{
    (a & !0x0000_F01C) | (b & 0x0000_F01C)
}

/// The odd bytes of one word with the even bytes of another.
pub fn bytes_of(a: u64, b: u64) -> u64
    ensures low { result % 256 ≡ b % 256 }
    ensures second { result / 256 % 256 ≡ a / 256 % 256 }
    ensures third { result / 65536 % 256 ≡ b / 65536 % 256 }
    ensures high { result / 16777216 ≡ a / 16777216 }
{
    (a & !0x00FF_00FF) | (b & 0x00FF_00FF)
}

/// Writes the rate from the low bits of a number.
pub fn with_rate(word: u16, rate: u16) -> u16
    ensures rate { result / 16 % 64 ≡ rate % 64 }
    ensures low { result % 16 ≡ word % 16 }
    ensures high { result / 1024 ≡ word / 1024 }
{
    (word & !0x03F0) | ((rate & 0x3F) << 4)
}

/// Moves the upper part up by two places.
pub fn spread(x: u16) -> u16
    requires fits { x < 4096 }
    ensures { result ≡ x / 32 * 128 + x % 32 }
{
    ((x >> 5) << 7) | (x & 0x1F)
}

/// The address of a row in a table.
pub fn row_address(v: u16) -> u16
    ensures { result ≡ 32768 + v / 256 % 8 * 256 + v / 128 % 8 * 4 + v / 2 % 4 }
{
    0x8000 | (v & 0x0700) | ((v >> 5) & 0x1C) | ((v >> 1) & 3)
}

/// The page of a table.
pub fn page_address(v: u32) -> u32
    ensures { result ≡ 4026531840 + v / 65536 % 16 * 65536 + v / 4096 % 16 * 16 + v / 16 % 16 }
{
    0xF000_0000 | (v & 0x000F_0000) | ((v >> 8) & 0xF0) | ((v >> 4) & 0xF)
}

/// Clears the count and turns the phase over.
pub fn restarted(v: u32) -> u32
    ensures low { result % 64 ≡ 0 }
    ensures phase { result / 2048 % 2 + v / 2048 % 2 ≡ 1 }
    ensures middle { result / 64 % 32 ≡ v / 64 % 32 }
    ensures high { result / 4096 ≡ v / 4096 }
{
    (v & !0x3F) ^ 0x800
}

/// Six flags and a mode of two bits.
pub fn packed(a: bool, b: bool, c: bool, d: bool, e: bool, f: bool, mode: u8) -> u8
    requires fits { mode < 4 }
    ensures mode { result / 2 % 4 ≡ mode }
    ensures a { result / 128 ≡ (if a then 1 else 0) }
    ensures b { result / 64 % 2 ≡ (if b then 1 else 0) }
    ensures c { result / 32 % 2 ≡ (if c then 1 else 0) }
    ensures d { result / 16 % 2 ≡ (if d then 1 else 0) }
    ensures e { result / 8 % 2 ≡ (if e then 1 else 0) }
    ensures f { result % 2 ≡ (if f then 1 else 0) }
{
    (u8::from(a) << 7)
        | (u8::from(b) << 6)
        | (u8::from(c) << 5)
        | (u8::from(d) << 4)
        | (u8::from(e) << 3)
        | (mode << 1)
        | u8::from(f)
}

/// Writes the mode and reads it back.
pub fn mode_back(word: u8, mode: u8) -> u8
    requires fits { mode < 4 }
    ensures { result ≡ mode }
{
    let written = (word & 0xF9) | (mode << 1);
    (written >> 1) & 3
}

//! `BITS` of `UInt` at 1 to 64 bits, over the smallest primitive that has room. With one impl for each width, the
//! compiler evaluates the constant, so it can be the length of an array, a pattern or part of another constant.
//! tools/short_names.py writes this file.

use crate::unsigned::UInt;

impl UInt<u8, 1> {
    /// The width in bits.
    pub const BITS: usize = 1;
}

impl UInt<u8, 2> {
    /// The width in bits.
    pub const BITS: usize = 2;
}

impl UInt<u8, 3> {
    /// The width in bits.
    pub const BITS: usize = 3;
}

impl UInt<u8, 4> {
    /// The width in bits.
    pub const BITS: usize = 4;
}

impl UInt<u8, 5> {
    /// The width in bits.
    pub const BITS: usize = 5;
}

impl UInt<u8, 6> {
    /// The width in bits.
    pub const BITS: usize = 6;
}

impl UInt<u8, 7> {
    /// The width in bits.
    pub const BITS: usize = 7;
}

impl UInt<u8, 8> {
    /// The width in bits.
    pub const BITS: usize = 8;
}

impl UInt<u16, 9> {
    /// The width in bits.
    pub const BITS: usize = 9;
}

impl UInt<u16, 10> {
    /// The width in bits.
    pub const BITS: usize = 10;
}

impl UInt<u16, 11> {
    /// The width in bits.
    pub const BITS: usize = 11;
}

impl UInt<u16, 12> {
    /// The width in bits.
    pub const BITS: usize = 12;
}

impl UInt<u16, 13> {
    /// The width in bits.
    pub const BITS: usize = 13;
}

impl UInt<u16, 14> {
    /// The width in bits.
    pub const BITS: usize = 14;
}

impl UInt<u16, 15> {
    /// The width in bits.
    pub const BITS: usize = 15;
}

impl UInt<u16, 16> {
    /// The width in bits.
    pub const BITS: usize = 16;
}

impl UInt<u32, 17> {
    /// The width in bits.
    pub const BITS: usize = 17;
}

impl UInt<u32, 18> {
    /// The width in bits.
    pub const BITS: usize = 18;
}

impl UInt<u32, 19> {
    /// The width in bits.
    pub const BITS: usize = 19;
}

impl UInt<u32, 20> {
    /// The width in bits.
    pub const BITS: usize = 20;
}

impl UInt<u32, 21> {
    /// The width in bits.
    pub const BITS: usize = 21;
}

impl UInt<u32, 22> {
    /// The width in bits.
    pub const BITS: usize = 22;
}

impl UInt<u32, 23> {
    /// The width in bits.
    pub const BITS: usize = 23;
}

impl UInt<u32, 24> {
    /// The width in bits.
    pub const BITS: usize = 24;
}

impl UInt<u32, 25> {
    /// The width in bits.
    pub const BITS: usize = 25;
}

impl UInt<u32, 26> {
    /// The width in bits.
    pub const BITS: usize = 26;
}

impl UInt<u32, 27> {
    /// The width in bits.
    pub const BITS: usize = 27;
}

impl UInt<u32, 28> {
    /// The width in bits.
    pub const BITS: usize = 28;
}

impl UInt<u32, 29> {
    /// The width in bits.
    pub const BITS: usize = 29;
}

impl UInt<u32, 30> {
    /// The width in bits.
    pub const BITS: usize = 30;
}

impl UInt<u32, 31> {
    /// The width in bits.
    pub const BITS: usize = 31;
}

impl UInt<u32, 32> {
    /// The width in bits.
    pub const BITS: usize = 32;
}

impl UInt<u64, 33> {
    /// The width in bits.
    pub const BITS: usize = 33;
}

impl UInt<u64, 34> {
    /// The width in bits.
    pub const BITS: usize = 34;
}

impl UInt<u64, 35> {
    /// The width in bits.
    pub const BITS: usize = 35;
}

impl UInt<u64, 36> {
    /// The width in bits.
    pub const BITS: usize = 36;
}

impl UInt<u64, 37> {
    /// The width in bits.
    pub const BITS: usize = 37;
}

impl UInt<u64, 38> {
    /// The width in bits.
    pub const BITS: usize = 38;
}

impl UInt<u64, 39> {
    /// The width in bits.
    pub const BITS: usize = 39;
}

impl UInt<u64, 40> {
    /// The width in bits.
    pub const BITS: usize = 40;
}

impl UInt<u64, 41> {
    /// The width in bits.
    pub const BITS: usize = 41;
}

impl UInt<u64, 42> {
    /// The width in bits.
    pub const BITS: usize = 42;
}

impl UInt<u64, 43> {
    /// The width in bits.
    pub const BITS: usize = 43;
}

impl UInt<u64, 44> {
    /// The width in bits.
    pub const BITS: usize = 44;
}

impl UInt<u64, 45> {
    /// The width in bits.
    pub const BITS: usize = 45;
}

impl UInt<u64, 46> {
    /// The width in bits.
    pub const BITS: usize = 46;
}

impl UInt<u64, 47> {
    /// The width in bits.
    pub const BITS: usize = 47;
}

impl UInt<u64, 48> {
    /// The width in bits.
    pub const BITS: usize = 48;
}

impl UInt<u64, 49> {
    /// The width in bits.
    pub const BITS: usize = 49;
}

impl UInt<u64, 50> {
    /// The width in bits.
    pub const BITS: usize = 50;
}

impl UInt<u64, 51> {
    /// The width in bits.
    pub const BITS: usize = 51;
}

impl UInt<u64, 52> {
    /// The width in bits.
    pub const BITS: usize = 52;
}

impl UInt<u64, 53> {
    /// The width in bits.
    pub const BITS: usize = 53;
}

impl UInt<u64, 54> {
    /// The width in bits.
    pub const BITS: usize = 54;
}

impl UInt<u64, 55> {
    /// The width in bits.
    pub const BITS: usize = 55;
}

impl UInt<u64, 56> {
    /// The width in bits.
    pub const BITS: usize = 56;
}

impl UInt<u64, 57> {
    /// The width in bits.
    pub const BITS: usize = 57;
}

impl UInt<u64, 58> {
    /// The width in bits.
    pub const BITS: usize = 58;
}

impl UInt<u64, 59> {
    /// The width in bits.
    pub const BITS: usize = 59;
}

impl UInt<u64, 60> {
    /// The width in bits.
    pub const BITS: usize = 60;
}

impl UInt<u64, 61> {
    /// The width in bits.
    pub const BITS: usize = 61;
}

impl UInt<u64, 62> {
    /// The width in bits.
    pub const BITS: usize = 62;
}

impl UInt<u64, 63> {
    /// The width in bits.
    pub const BITS: usize = 63;
}

impl UInt<u64, 64> {
    /// The width in bits.
    pub const BITS: usize = 64;
}

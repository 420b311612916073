//! `BITS` of `Int` at 1 to 64 bits, over the smallest primitive that has room. With one impl for each width, the
//! compiler evaluates the constant, so it can be the length of an array, a pattern or part of another constant.
//! tools/short_names.py writes this file.

use crate::signed::Int;

impl Int<i8, 1> {
    /// The width in bits.
    pub const BITS: usize = 1;
}

impl Int<i8, 2> {
    /// The width in bits.
    pub const BITS: usize = 2;
}

impl Int<i8, 3> {
    /// The width in bits.
    pub const BITS: usize = 3;
}

impl Int<i8, 4> {
    /// The width in bits.
    pub const BITS: usize = 4;
}

impl Int<i8, 5> {
    /// The width in bits.
    pub const BITS: usize = 5;
}

impl Int<i8, 6> {
    /// The width in bits.
    pub const BITS: usize = 6;
}

impl Int<i8, 7> {
    /// The width in bits.
    pub const BITS: usize = 7;
}

impl Int<i8, 8> {
    /// The width in bits.
    pub const BITS: usize = 8;
}

impl Int<i16, 9> {
    /// The width in bits.
    pub const BITS: usize = 9;
}

impl Int<i16, 10> {
    /// The width in bits.
    pub const BITS: usize = 10;
}

impl Int<i16, 11> {
    /// The width in bits.
    pub const BITS: usize = 11;
}

impl Int<i16, 12> {
    /// The width in bits.
    pub const BITS: usize = 12;
}

impl Int<i16, 13> {
    /// The width in bits.
    pub const BITS: usize = 13;
}

impl Int<i16, 14> {
    /// The width in bits.
    pub const BITS: usize = 14;
}

impl Int<i16, 15> {
    /// The width in bits.
    pub const BITS: usize = 15;
}

impl Int<i16, 16> {
    /// The width in bits.
    pub const BITS: usize = 16;
}

impl Int<i32, 17> {
    /// The width in bits.
    pub const BITS: usize = 17;
}

impl Int<i32, 18> {
    /// The width in bits.
    pub const BITS: usize = 18;
}

impl Int<i32, 19> {
    /// The width in bits.
    pub const BITS: usize = 19;
}

impl Int<i32, 20> {
    /// The width in bits.
    pub const BITS: usize = 20;
}

impl Int<i32, 21> {
    /// The width in bits.
    pub const BITS: usize = 21;
}

impl Int<i32, 22> {
    /// The width in bits.
    pub const BITS: usize = 22;
}

impl Int<i32, 23> {
    /// The width in bits.
    pub const BITS: usize = 23;
}

impl Int<i32, 24> {
    /// The width in bits.
    pub const BITS: usize = 24;
}

impl Int<i32, 25> {
    /// The width in bits.
    pub const BITS: usize = 25;
}

impl Int<i32, 26> {
    /// The width in bits.
    pub const BITS: usize = 26;
}

impl Int<i32, 27> {
    /// The width in bits.
    pub const BITS: usize = 27;
}

impl Int<i32, 28> {
    /// The width in bits.
    pub const BITS: usize = 28;
}

impl Int<i32, 29> {
    /// The width in bits.
    pub const BITS: usize = 29;
}

impl Int<i32, 30> {
    /// The width in bits.
    pub const BITS: usize = 30;
}

impl Int<i32, 31> {
    /// The width in bits.
    pub const BITS: usize = 31;
}

impl Int<i32, 32> {
    /// The width in bits.
    pub const BITS: usize = 32;
}

impl Int<i64, 33> {
    /// The width in bits.
    pub const BITS: usize = 33;
}

impl Int<i64, 34> {
    /// The width in bits.
    pub const BITS: usize = 34;
}

impl Int<i64, 35> {
    /// The width in bits.
    pub const BITS: usize = 35;
}

impl Int<i64, 36> {
    /// The width in bits.
    pub const BITS: usize = 36;
}

impl Int<i64, 37> {
    /// The width in bits.
    pub const BITS: usize = 37;
}

impl Int<i64, 38> {
    /// The width in bits.
    pub const BITS: usize = 38;
}

impl Int<i64, 39> {
    /// The width in bits.
    pub const BITS: usize = 39;
}

impl Int<i64, 40> {
    /// The width in bits.
    pub const BITS: usize = 40;
}

impl Int<i64, 41> {
    /// The width in bits.
    pub const BITS: usize = 41;
}

impl Int<i64, 42> {
    /// The width in bits.
    pub const BITS: usize = 42;
}

impl Int<i64, 43> {
    /// The width in bits.
    pub const BITS: usize = 43;
}

impl Int<i64, 44> {
    /// The width in bits.
    pub const BITS: usize = 44;
}

impl Int<i64, 45> {
    /// The width in bits.
    pub const BITS: usize = 45;
}

impl Int<i64, 46> {
    /// The width in bits.
    pub const BITS: usize = 46;
}

impl Int<i64, 47> {
    /// The width in bits.
    pub const BITS: usize = 47;
}

impl Int<i64, 48> {
    /// The width in bits.
    pub const BITS: usize = 48;
}

impl Int<i64, 49> {
    /// The width in bits.
    pub const BITS: usize = 49;
}

impl Int<i64, 50> {
    /// The width in bits.
    pub const BITS: usize = 50;
}

impl Int<i64, 51> {
    /// The width in bits.
    pub const BITS: usize = 51;
}

impl Int<i64, 52> {
    /// The width in bits.
    pub const BITS: usize = 52;
}

impl Int<i64, 53> {
    /// The width in bits.
    pub const BITS: usize = 53;
}

impl Int<i64, 54> {
    /// The width in bits.
    pub const BITS: usize = 54;
}

impl Int<i64, 55> {
    /// The width in bits.
    pub const BITS: usize = 55;
}

impl Int<i64, 56> {
    /// The width in bits.
    pub const BITS: usize = 56;
}

impl Int<i64, 57> {
    /// The width in bits.
    pub const BITS: usize = 57;
}

impl Int<i64, 58> {
    /// The width in bits.
    pub const BITS: usize = 58;
}

impl Int<i64, 59> {
    /// The width in bits.
    pub const BITS: usize = 59;
}

impl Int<i64, 60> {
    /// The width in bits.
    pub const BITS: usize = 60;
}

impl Int<i64, 61> {
    /// The width in bits.
    pub const BITS: usize = 61;
}

impl Int<i64, 62> {
    /// The width in bits.
    pub const BITS: usize = 62;
}

impl Int<i64, 63> {
    /// The width in bits.
    pub const BITS: usize = 63;
}

impl Int<i64, 64> {
    /// The width in bits.
    pub const BITS: usize = 64;
}

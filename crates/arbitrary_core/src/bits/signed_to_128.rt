//! `BITS` of `Int` at 65 to 128 bits, over the smallest primitive that has room. With one impl for each width, the
//! compiler evaluates the constant, so it can be the length of an array, a pattern or part of another constant.
//! tools/short_names.py writes this file.

use crate::signed::Int;

impl Int<i128, 65> {
    /// The width in bits.
    pub const BITS: usize = 65;
}

impl Int<i128, 66> {
    /// The width in bits.
    pub const BITS: usize = 66;
}

impl Int<i128, 67> {
    /// The width in bits.
    pub const BITS: usize = 67;
}

impl Int<i128, 68> {
    /// The width in bits.
    pub const BITS: usize = 68;
}

impl Int<i128, 69> {
    /// The width in bits.
    pub const BITS: usize = 69;
}

impl Int<i128, 70> {
    /// The width in bits.
    pub const BITS: usize = 70;
}

impl Int<i128, 71> {
    /// The width in bits.
    pub const BITS: usize = 71;
}

impl Int<i128, 72> {
    /// The width in bits.
    pub const BITS: usize = 72;
}

impl Int<i128, 73> {
    /// The width in bits.
    pub const BITS: usize = 73;
}

impl Int<i128, 74> {
    /// The width in bits.
    pub const BITS: usize = 74;
}

impl Int<i128, 75> {
    /// The width in bits.
    pub const BITS: usize = 75;
}

impl Int<i128, 76> {
    /// The width in bits.
    pub const BITS: usize = 76;
}

impl Int<i128, 77> {
    /// The width in bits.
    pub const BITS: usize = 77;
}

impl Int<i128, 78> {
    /// The width in bits.
    pub const BITS: usize = 78;
}

impl Int<i128, 79> {
    /// The width in bits.
    pub const BITS: usize = 79;
}

impl Int<i128, 80> {
    /// The width in bits.
    pub const BITS: usize = 80;
}

impl Int<i128, 81> {
    /// The width in bits.
    pub const BITS: usize = 81;
}

impl Int<i128, 82> {
    /// The width in bits.
    pub const BITS: usize = 82;
}

impl Int<i128, 83> {
    /// The width in bits.
    pub const BITS: usize = 83;
}

impl Int<i128, 84> {
    /// The width in bits.
    pub const BITS: usize = 84;
}

impl Int<i128, 85> {
    /// The width in bits.
    pub const BITS: usize = 85;
}

impl Int<i128, 86> {
    /// The width in bits.
    pub const BITS: usize = 86;
}

impl Int<i128, 87> {
    /// The width in bits.
    pub const BITS: usize = 87;
}

impl Int<i128, 88> {
    /// The width in bits.
    pub const BITS: usize = 88;
}

impl Int<i128, 89> {
    /// The width in bits.
    pub const BITS: usize = 89;
}

impl Int<i128, 90> {
    /// The width in bits.
    pub const BITS: usize = 90;
}

impl Int<i128, 91> {
    /// The width in bits.
    pub const BITS: usize = 91;
}

impl Int<i128, 92> {
    /// The width in bits.
    pub const BITS: usize = 92;
}

impl Int<i128, 93> {
    /// The width in bits.
    pub const BITS: usize = 93;
}

impl Int<i128, 94> {
    /// The width in bits.
    pub const BITS: usize = 94;
}

impl Int<i128, 95> {
    /// The width in bits.
    pub const BITS: usize = 95;
}

impl Int<i128, 96> {
    /// The width in bits.
    pub const BITS: usize = 96;
}

impl Int<i128, 97> {
    /// The width in bits.
    pub const BITS: usize = 97;
}

impl Int<i128, 98> {
    /// The width in bits.
    pub const BITS: usize = 98;
}

impl Int<i128, 99> {
    /// The width in bits.
    pub const BITS: usize = 99;
}

impl Int<i128, 100> {
    /// The width in bits.
    pub const BITS: usize = 100;
}

impl Int<i128, 101> {
    /// The width in bits.
    pub const BITS: usize = 101;
}

impl Int<i128, 102> {
    /// The width in bits.
    pub const BITS: usize = 102;
}

impl Int<i128, 103> {
    /// The width in bits.
    pub const BITS: usize = 103;
}

impl Int<i128, 104> {
    /// The width in bits.
    pub const BITS: usize = 104;
}

impl Int<i128, 105> {
    /// The width in bits.
    pub const BITS: usize = 105;
}

impl Int<i128, 106> {
    /// The width in bits.
    pub const BITS: usize = 106;
}

impl Int<i128, 107> {
    /// The width in bits.
    pub const BITS: usize = 107;
}

impl Int<i128, 108> {
    /// The width in bits.
    pub const BITS: usize = 108;
}

impl Int<i128, 109> {
    /// The width in bits.
    pub const BITS: usize = 109;
}

impl Int<i128, 110> {
    /// The width in bits.
    pub const BITS: usize = 110;
}

impl Int<i128, 111> {
    /// The width in bits.
    pub const BITS: usize = 111;
}

impl Int<i128, 112> {
    /// The width in bits.
    pub const BITS: usize = 112;
}

impl Int<i128, 113> {
    /// The width in bits.
    pub const BITS: usize = 113;
}

impl Int<i128, 114> {
    /// The width in bits.
    pub const BITS: usize = 114;
}

impl Int<i128, 115> {
    /// The width in bits.
    pub const BITS: usize = 115;
}

impl Int<i128, 116> {
    /// The width in bits.
    pub const BITS: usize = 116;
}

impl Int<i128, 117> {
    /// The width in bits.
    pub const BITS: usize = 117;
}

impl Int<i128, 118> {
    /// The width in bits.
    pub const BITS: usize = 118;
}

impl Int<i128, 119> {
    /// The width in bits.
    pub const BITS: usize = 119;
}

impl Int<i128, 120> {
    /// The width in bits.
    pub const BITS: usize = 120;
}

impl Int<i128, 121> {
    /// The width in bits.
    pub const BITS: usize = 121;
}

impl Int<i128, 122> {
    /// The width in bits.
    pub const BITS: usize = 122;
}

impl Int<i128, 123> {
    /// The width in bits.
    pub const BITS: usize = 123;
}

impl Int<i128, 124> {
    /// The width in bits.
    pub const BITS: usize = 124;
}

impl Int<i128, 125> {
    /// The width in bits.
    pub const BITS: usize = 125;
}

impl Int<i128, 126> {
    /// The width in bits.
    pub const BITS: usize = 126;
}

impl Int<i128, 127> {
    /// The width in bits.
    pub const BITS: usize = 127;
}

impl Int<i128, 128> {
    /// The width in bits.
    pub const BITS: usize = 128;
}

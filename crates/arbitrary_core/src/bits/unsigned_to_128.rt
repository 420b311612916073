//! `BITS` of `UInt` at 65 to 128 bits, over the smallest primitive that has room. With one impl for each width, the
//! compiler evaluates the constant, so it can be the length of an array, a pattern or part of another constant.
//! tools/short_names.py writes this file.

use crate::unsigned::UInt;

impl UInt<u128, 65> {
    /// The width in bits.
    pub const BITS: usize = 65;
}

impl UInt<u128, 66> {
    /// The width in bits.
    pub const BITS: usize = 66;
}

impl UInt<u128, 67> {
    /// The width in bits.
    pub const BITS: usize = 67;
}

impl UInt<u128, 68> {
    /// The width in bits.
    pub const BITS: usize = 68;
}

impl UInt<u128, 69> {
    /// The width in bits.
    pub const BITS: usize = 69;
}

impl UInt<u128, 70> {
    /// The width in bits.
    pub const BITS: usize = 70;
}

impl UInt<u128, 71> {
    /// The width in bits.
    pub const BITS: usize = 71;
}

impl UInt<u128, 72> {
    /// The width in bits.
    pub const BITS: usize = 72;
}

impl UInt<u128, 73> {
    /// The width in bits.
    pub const BITS: usize = 73;
}

impl UInt<u128, 74> {
    /// The width in bits.
    pub const BITS: usize = 74;
}

impl UInt<u128, 75> {
    /// The width in bits.
    pub const BITS: usize = 75;
}

impl UInt<u128, 76> {
    /// The width in bits.
    pub const BITS: usize = 76;
}

impl UInt<u128, 77> {
    /// The width in bits.
    pub const BITS: usize = 77;
}

impl UInt<u128, 78> {
    /// The width in bits.
    pub const BITS: usize = 78;
}

impl UInt<u128, 79> {
    /// The width in bits.
    pub const BITS: usize = 79;
}

impl UInt<u128, 80> {
    /// The width in bits.
    pub const BITS: usize = 80;
}

impl UInt<u128, 81> {
    /// The width in bits.
    pub const BITS: usize = 81;
}

impl UInt<u128, 82> {
    /// The width in bits.
    pub const BITS: usize = 82;
}

impl UInt<u128, 83> {
    /// The width in bits.
    pub const BITS: usize = 83;
}

impl UInt<u128, 84> {
    /// The width in bits.
    pub const BITS: usize = 84;
}

impl UInt<u128, 85> {
    /// The width in bits.
    pub const BITS: usize = 85;
}

impl UInt<u128, 86> {
    /// The width in bits.
    pub const BITS: usize = 86;
}

impl UInt<u128, 87> {
    /// The width in bits.
    pub const BITS: usize = 87;
}

impl UInt<u128, 88> {
    /// The width in bits.
    pub const BITS: usize = 88;
}

impl UInt<u128, 89> {
    /// The width in bits.
    pub const BITS: usize = 89;
}

impl UInt<u128, 90> {
    /// The width in bits.
    pub const BITS: usize = 90;
}

impl UInt<u128, 91> {
    /// The width in bits.
    pub const BITS: usize = 91;
}

impl UInt<u128, 92> {
    /// The width in bits.
    pub const BITS: usize = 92;
}

impl UInt<u128, 93> {
    /// The width in bits.
    pub const BITS: usize = 93;
}

impl UInt<u128, 94> {
    /// The width in bits.
    pub const BITS: usize = 94;
}

impl UInt<u128, 95> {
    /// The width in bits.
    pub const BITS: usize = 95;
}

impl UInt<u128, 96> {
    /// The width in bits.
    pub const BITS: usize = 96;
}

impl UInt<u128, 97> {
    /// The width in bits.
    pub const BITS: usize = 97;
}

impl UInt<u128, 98> {
    /// The width in bits.
    pub const BITS: usize = 98;
}

impl UInt<u128, 99> {
    /// The width in bits.
    pub const BITS: usize = 99;
}

impl UInt<u128, 100> {
    /// The width in bits.
    pub const BITS: usize = 100;
}

impl UInt<u128, 101> {
    /// The width in bits.
    pub const BITS: usize = 101;
}

impl UInt<u128, 102> {
    /// The width in bits.
    pub const BITS: usize = 102;
}

impl UInt<u128, 103> {
    /// The width in bits.
    pub const BITS: usize = 103;
}

impl UInt<u128, 104> {
    /// The width in bits.
    pub const BITS: usize = 104;
}

impl UInt<u128, 105> {
    /// The width in bits.
    pub const BITS: usize = 105;
}

impl UInt<u128, 106> {
    /// The width in bits.
    pub const BITS: usize = 106;
}

impl UInt<u128, 107> {
    /// The width in bits.
    pub const BITS: usize = 107;
}

impl UInt<u128, 108> {
    /// The width in bits.
    pub const BITS: usize = 108;
}

impl UInt<u128, 109> {
    /// The width in bits.
    pub const BITS: usize = 109;
}

impl UInt<u128, 110> {
    /// The width in bits.
    pub const BITS: usize = 110;
}

impl UInt<u128, 111> {
    /// The width in bits.
    pub const BITS: usize = 111;
}

impl UInt<u128, 112> {
    /// The width in bits.
    pub const BITS: usize = 112;
}

impl UInt<u128, 113> {
    /// The width in bits.
    pub const BITS: usize = 113;
}

impl UInt<u128, 114> {
    /// The width in bits.
    pub const BITS: usize = 114;
}

impl UInt<u128, 115> {
    /// The width in bits.
    pub const BITS: usize = 115;
}

impl UInt<u128, 116> {
    /// The width in bits.
    pub const BITS: usize = 116;
}

impl UInt<u128, 117> {
    /// The width in bits.
    pub const BITS: usize = 117;
}

impl UInt<u128, 118> {
    /// The width in bits.
    pub const BITS: usize = 118;
}

impl UInt<u128, 119> {
    /// The width in bits.
    pub const BITS: usize = 119;
}

impl UInt<u128, 120> {
    /// The width in bits.
    pub const BITS: usize = 120;
}

impl UInt<u128, 121> {
    /// The width in bits.
    pub const BITS: usize = 121;
}

impl UInt<u128, 122> {
    /// The width in bits.
    pub const BITS: usize = 122;
}

impl UInt<u128, 123> {
    /// The width in bits.
    pub const BITS: usize = 123;
}

impl UInt<u128, 124> {
    /// The width in bits.
    pub const BITS: usize = 124;
}

impl UInt<u128, 125> {
    /// The width in bits.
    pub const BITS: usize = 125;
}

impl UInt<u128, 126> {
    /// The width in bits.
    pub const BITS: usize = 126;
}

impl UInt<u128, 127> {
    /// The width in bits.
    pub const BITS: usize = 127;
}

impl UInt<u128, 128> {
    /// The width in bits.
    pub const BITS: usize = 128;
}

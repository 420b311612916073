//! The impls of `FitsIn` at 8 to 64 bits, for each storage with at most as many bits (`most`).
//! tools/short_names.py writes this file.

ghost use Rattle.std.proofs.Common.{lit≤, le_trans};

use crate::FitsIn;
use crate::most::{AtMost8, AtMost16, AtMost32, AtMost64};

impl<T: AtMost8> FitsIn<8> for T {
    ghost fits_law = { T.most_8_law };
}

impl<T: AtMost8> FitsIn<9> for T {
    ghost fits_law = { le_trans T.most_8_law (lit≤ tt) };
}

impl<T: AtMost8> FitsIn<10> for T {
    ghost fits_law = { le_trans T.most_8_law (lit≤ tt) };
}

impl<T: AtMost8> FitsIn<11> for T {
    ghost fits_law = { le_trans T.most_8_law (lit≤ tt) };
}

impl<T: AtMost8> FitsIn<12> for T {
    ghost fits_law = { le_trans T.most_8_law (lit≤ tt) };
}

impl<T: AtMost8> FitsIn<13> for T {
    ghost fits_law = { le_trans T.most_8_law (lit≤ tt) };
}

impl<T: AtMost8> FitsIn<14> for T {
    ghost fits_law = { le_trans T.most_8_law (lit≤ tt) };
}

impl<T: AtMost8> FitsIn<15> for T {
    ghost fits_law = { le_trans T.most_8_law (lit≤ tt) };
}

impl<T: AtMost16> FitsIn<16> for T {
    ghost fits_law = { T.most_16_law };
}

impl<T: AtMost16> FitsIn<17> for T {
    ghost fits_law = { le_trans T.most_16_law (lit≤ tt) };
}

impl<T: AtMost16> FitsIn<18> for T {
    ghost fits_law = { le_trans T.most_16_law (lit≤ tt) };
}

impl<T: AtMost16> FitsIn<19> for T {
    ghost fits_law = { le_trans T.most_16_law (lit≤ tt) };
}

impl<T: AtMost16> FitsIn<20> for T {
    ghost fits_law = { le_trans T.most_16_law (lit≤ tt) };
}

impl<T: AtMost16> FitsIn<21> for T {
    ghost fits_law = { le_trans T.most_16_law (lit≤ tt) };
}

impl<T: AtMost16> FitsIn<22> for T {
    ghost fits_law = { le_trans T.most_16_law (lit≤ tt) };
}

impl<T: AtMost16> FitsIn<23> for T {
    ghost fits_law = { le_trans T.most_16_law (lit≤ tt) };
}

impl<T: AtMost16> FitsIn<24> for T {
    ghost fits_law = { le_trans T.most_16_law (lit≤ tt) };
}

impl<T: AtMost16> FitsIn<25> for T {
    ghost fits_law = { le_trans T.most_16_law (lit≤ tt) };
}

impl<T: AtMost16> FitsIn<26> for T {
    ghost fits_law = { le_trans T.most_16_law (lit≤ tt) };
}

impl<T: AtMost16> FitsIn<27> for T {
    ghost fits_law = { le_trans T.most_16_law (lit≤ tt) };
}

impl<T: AtMost16> FitsIn<28> for T {
    ghost fits_law = { le_trans T.most_16_law (lit≤ tt) };
}

impl<T: AtMost16> FitsIn<29> for T {
    ghost fits_law = { le_trans T.most_16_law (lit≤ tt) };
}

impl<T: AtMost16> FitsIn<30> for T {
    ghost fits_law = { le_trans T.most_16_law (lit≤ tt) };
}

impl<T: AtMost16> FitsIn<31> for T {
    ghost fits_law = { le_trans T.most_16_law (lit≤ tt) };
}

impl<T: AtMost32> FitsIn<32> for T {
    ghost fits_law = { T.most_32_law };
}

impl<T: AtMost32> FitsIn<33> for T {
    ghost fits_law = { le_trans T.most_32_law (lit≤ tt) };
}

impl<T: AtMost32> FitsIn<34> for T {
    ghost fits_law = { le_trans T.most_32_law (lit≤ tt) };
}

impl<T: AtMost32> FitsIn<35> for T {
    ghost fits_law = { le_trans T.most_32_law (lit≤ tt) };
}

impl<T: AtMost32> FitsIn<36> for T {
    ghost fits_law = { le_trans T.most_32_law (lit≤ tt) };
}

impl<T: AtMost32> FitsIn<37> for T {
    ghost fits_law = { le_trans T.most_32_law (lit≤ tt) };
}

impl<T: AtMost32> FitsIn<38> for T {
    ghost fits_law = { le_trans T.most_32_law (lit≤ tt) };
}

impl<T: AtMost32> FitsIn<39> for T {
    ghost fits_law = { le_trans T.most_32_law (lit≤ tt) };
}

impl<T: AtMost32> FitsIn<40> for T {
    ghost fits_law = { le_trans T.most_32_law (lit≤ tt) };
}

impl<T: AtMost32> FitsIn<41> for T {
    ghost fits_law = { le_trans T.most_32_law (lit≤ tt) };
}

impl<T: AtMost32> FitsIn<42> for T {
    ghost fits_law = { le_trans T.most_32_law (lit≤ tt) };
}

impl<T: AtMost32> FitsIn<43> for T {
    ghost fits_law = { le_trans T.most_32_law (lit≤ tt) };
}

impl<T: AtMost32> FitsIn<44> for T {
    ghost fits_law = { le_trans T.most_32_law (lit≤ tt) };
}

impl<T: AtMost32> FitsIn<45> for T {
    ghost fits_law = { le_trans T.most_32_law (lit≤ tt) };
}

impl<T: AtMost32> FitsIn<46> for T {
    ghost fits_law = { le_trans T.most_32_law (lit≤ tt) };
}

impl<T: AtMost32> FitsIn<47> for T {
    ghost fits_law = { le_trans T.most_32_law (lit≤ tt) };
}

impl<T: AtMost32> FitsIn<48> for T {
    ghost fits_law = { le_trans T.most_32_law (lit≤ tt) };
}

impl<T: AtMost32> FitsIn<49> for T {
    ghost fits_law = { le_trans T.most_32_law (lit≤ tt) };
}

impl<T: AtMost32> FitsIn<50> for T {
    ghost fits_law = { le_trans T.most_32_law (lit≤ tt) };
}

impl<T: AtMost32> FitsIn<51> for T {
    ghost fits_law = { le_trans T.most_32_law (lit≤ tt) };
}

impl<T: AtMost32> FitsIn<52> for T {
    ghost fits_law = { le_trans T.most_32_law (lit≤ tt) };
}

impl<T: AtMost32> FitsIn<53> for T {
    ghost fits_law = { le_trans T.most_32_law (lit≤ tt) };
}

impl<T: AtMost32> FitsIn<54> for T {
    ghost fits_law = { le_trans T.most_32_law (lit≤ tt) };
}

impl<T: AtMost32> FitsIn<55> for T {
    ghost fits_law = { le_trans T.most_32_law (lit≤ tt) };
}

impl<T: AtMost32> FitsIn<56> for T {
    ghost fits_law = { le_trans T.most_32_law (lit≤ tt) };
}

impl<T: AtMost32> FitsIn<57> for T {
    ghost fits_law = { le_trans T.most_32_law (lit≤ tt) };
}

impl<T: AtMost32> FitsIn<58> for T {
    ghost fits_law = { le_trans T.most_32_law (lit≤ tt) };
}

impl<T: AtMost32> FitsIn<59> for T {
    ghost fits_law = { le_trans T.most_32_law (lit≤ tt) };
}

impl<T: AtMost32> FitsIn<60> for T {
    ghost fits_law = { le_trans T.most_32_law (lit≤ tt) };
}

impl<T: AtMost32> FitsIn<61> for T {
    ghost fits_law = { le_trans T.most_32_law (lit≤ tt) };
}

impl<T: AtMost32> FitsIn<62> for T {
    ghost fits_law = { le_trans T.most_32_law (lit≤ tt) };
}

impl<T: AtMost32> FitsIn<63> for T {
    ghost fits_law = { le_trans T.most_32_law (lit≤ tt) };
}

impl<T: AtMost64> FitsIn<64> for T {
    ghost fits_law = { T.most_64_law };
}

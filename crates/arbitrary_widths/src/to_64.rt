//! The impls of `HasWidth` at 1 to 64 bits, for each storage with at least as many bits (`room`).
//! tools/short_names.py writes this file.

ghost use Rattle.std.proofs.Common.{lit≤, le_trans};

use crate::HasWidth;
use crate::room::{AtLeast8, AtLeast16, AtLeast32, AtLeast64};

impl<T: AtLeast8> HasWidth<1> for T {
    ghost valid_law = { (lit≤ tt, le_trans (lit≤ tt) T.room_8_law) };
}

impl<T: AtLeast8> HasWidth<2> for T {
    ghost valid_law = { (lit≤ tt, le_trans (lit≤ tt) T.room_8_law) };
}

impl<T: AtLeast8> HasWidth<3> for T {
    ghost valid_law = { (lit≤ tt, le_trans (lit≤ tt) T.room_8_law) };
}

impl<T: AtLeast8> HasWidth<4> for T {
    ghost valid_law = { (lit≤ tt, le_trans (lit≤ tt) T.room_8_law) };
}

impl<T: AtLeast8> HasWidth<5> for T {
    ghost valid_law = { (lit≤ tt, le_trans (lit≤ tt) T.room_8_law) };
}

impl<T: AtLeast8> HasWidth<6> for T {
    ghost valid_law = { (lit≤ tt, le_trans (lit≤ tt) T.room_8_law) };
}

impl<T: AtLeast8> HasWidth<7> for T {
    ghost valid_law = { (lit≤ tt, le_trans (lit≤ tt) T.room_8_law) };
}

impl<T: AtLeast8> HasWidth<8> for T {
    ghost valid_law = { (lit≤ tt, T.room_8_law) };
}

impl<T: AtLeast16> HasWidth<9> for T {
    ghost valid_law = { (lit≤ tt, le_trans (lit≤ tt) T.room_16_law) };
}

impl<T: AtLeast16> HasWidth<10> for T {
    ghost valid_law = { (lit≤ tt, le_trans (lit≤ tt) T.room_16_law) };
}

impl<T: AtLeast16> HasWidth<11> for T {
    ghost valid_law = { (lit≤ tt, le_trans (lit≤ tt) T.room_16_law) };
}

impl<T: AtLeast16> HasWidth<12> for T {
    ghost valid_law = { (lit≤ tt, le_trans (lit≤ tt) T.room_16_law) };
}

impl<T: AtLeast16> HasWidth<13> for T {
    ghost valid_law = { (lit≤ tt, le_trans (lit≤ tt) T.room_16_law) };
}

impl<T: AtLeast16> HasWidth<14> for T {
    ghost valid_law = { (lit≤ tt, le_trans (lit≤ tt) T.room_16_law) };
}

impl<T: AtLeast16> HasWidth<15> for T {
    ghost valid_law = { (lit≤ tt, le_trans (lit≤ tt) T.room_16_law) };
}

impl<T: AtLeast16> HasWidth<16> for T {
    ghost valid_law = { (lit≤ tt, T.room_16_law) };
}

impl<T: AtLeast32> HasWidth<17> for T {
    ghost valid_law = { (lit≤ tt, le_trans (lit≤ tt) T.room_32_law) };
}

impl<T: AtLeast32> HasWidth<18> for T {
    ghost valid_law = { (lit≤ tt, le_trans (lit≤ tt) T.room_32_law) };
}

impl<T: AtLeast32> HasWidth<19> for T {
    ghost valid_law = { (lit≤ tt, le_trans (lit≤ tt) T.room_32_law) };
}

impl<T: AtLeast32> HasWidth<20> for T {
    ghost valid_law = { (lit≤ tt, le_trans (lit≤ tt) T.room_32_law) };
}

impl<T: AtLeast32> HasWidth<21> for T {
    ghost valid_law = { (lit≤ tt, le_trans (lit≤ tt) T.room_32_law) };
}

impl<T: AtLeast32> HasWidth<22> for T {
    ghost valid_law = { (lit≤ tt, le_trans (lit≤ tt) T.room_32_law) };
}

impl<T: AtLeast32> HasWidth<23> for T {
    ghost valid_law = { (lit≤ tt, le_trans (lit≤ tt) T.room_32_law) };
}

impl<T: AtLeast32> HasWidth<24> for T {
    ghost valid_law = { (lit≤ tt, le_trans (lit≤ tt) T.room_32_law) };
}

impl<T: AtLeast32> HasWidth<25> for T {
    ghost valid_law = { (lit≤ tt, le_trans (lit≤ tt) T.room_32_law) };
}

impl<T: AtLeast32> HasWidth<26> for T {
    ghost valid_law = { (lit≤ tt, le_trans (lit≤ tt) T.room_32_law) };
}

impl<T: AtLeast32> HasWidth<27> for T {
    ghost valid_law = { (lit≤ tt, le_trans (lit≤ tt) T.room_32_law) };
}

impl<T: AtLeast32> HasWidth<28> for T {
    ghost valid_law = { (lit≤ tt, le_trans (lit≤ tt) T.room_32_law) };
}

impl<T: AtLeast32> HasWidth<29> for T {
    ghost valid_law = { (lit≤ tt, le_trans (lit≤ tt) T.room_32_law) };
}

impl<T: AtLeast32> HasWidth<30> for T {
    ghost valid_law = { (lit≤ tt, le_trans (lit≤ tt) T.room_32_law) };
}

impl<T: AtLeast32> HasWidth<31> for T {
    ghost valid_law = { (lit≤ tt, le_trans (lit≤ tt) T.room_32_law) };
}

impl<T: AtLeast32> HasWidth<32> for T {
    ghost valid_law = { (lit≤ tt, T.room_32_law) };
}

impl<T: AtLeast64> HasWidth<33> for T {
    ghost valid_law = { (lit≤ tt, le_trans (lit≤ tt) T.room_64_law) };
}

impl<T: AtLeast64> HasWidth<34> for T {
    ghost valid_law = { (lit≤ tt, le_trans (lit≤ tt) T.room_64_law) };
}

impl<T: AtLeast64> HasWidth<35> for T {
    ghost valid_law = { (lit≤ tt, le_trans (lit≤ tt) T.room_64_law) };
}

impl<T: AtLeast64> HasWidth<36> for T {
    ghost valid_law = { (lit≤ tt, le_trans (lit≤ tt) T.room_64_law) };
}

impl<T: AtLeast64> HasWidth<37> for T {
    ghost valid_law = { (lit≤ tt, le_trans (lit≤ tt) T.room_64_law) };
}

impl<T: AtLeast64> HasWidth<38> for T {
    ghost valid_law = { (lit≤ tt, le_trans (lit≤ tt) T.room_64_law) };
}

impl<T: AtLeast64> HasWidth<39> for T {
    ghost valid_law = { (lit≤ tt, le_trans (lit≤ tt) T.room_64_law) };
}

impl<T: AtLeast64> HasWidth<40> for T {
    ghost valid_law = { (lit≤ tt, le_trans (lit≤ tt) T.room_64_law) };
}

impl<T: AtLeast64> HasWidth<41> for T {
    ghost valid_law = { (lit≤ tt, le_trans (lit≤ tt) T.room_64_law) };
}

impl<T: AtLeast64> HasWidth<42> for T {
    ghost valid_law = { (lit≤ tt, le_trans (lit≤ tt) T.room_64_law) };
}

impl<T: AtLeast64> HasWidth<43> for T {
    ghost valid_law = { (lit≤ tt, le_trans (lit≤ tt) T.room_64_law) };
}

impl<T: AtLeast64> HasWidth<44> for T {
    ghost valid_law = { (lit≤ tt, le_trans (lit≤ tt) T.room_64_law) };
}

impl<T: AtLeast64> HasWidth<45> for T {
    ghost valid_law = { (lit≤ tt, le_trans (lit≤ tt) T.room_64_law) };
}

impl<T: AtLeast64> HasWidth<46> for T {
    ghost valid_law = { (lit≤ tt, le_trans (lit≤ tt) T.room_64_law) };
}

impl<T: AtLeast64> HasWidth<47> for T {
    ghost valid_law = { (lit≤ tt, le_trans (lit≤ tt) T.room_64_law) };
}

impl<T: AtLeast64> HasWidth<48> for T {
    ghost valid_law = { (lit≤ tt, le_trans (lit≤ tt) T.room_64_law) };
}

impl<T: AtLeast64> HasWidth<49> for T {
    ghost valid_law = { (lit≤ tt, le_trans (lit≤ tt) T.room_64_law) };
}

impl<T: AtLeast64> HasWidth<50> for T {
    ghost valid_law = { (lit≤ tt, le_trans (lit≤ tt) T.room_64_law) };
}

impl<T: AtLeast64> HasWidth<51> for T {
    ghost valid_law = { (lit≤ tt, le_trans (lit≤ tt) T.room_64_law) };
}

impl<T: AtLeast64> HasWidth<52> for T {
    ghost valid_law = { (lit≤ tt, le_trans (lit≤ tt) T.room_64_law) };
}

impl<T: AtLeast64> HasWidth<53> for T {
    ghost valid_law = { (lit≤ tt, le_trans (lit≤ tt) T.room_64_law) };
}

impl<T: AtLeast64> HasWidth<54> for T {
    ghost valid_law = { (lit≤ tt, le_trans (lit≤ tt) T.room_64_law) };
}

impl<T: AtLeast64> HasWidth<55> for T {
    ghost valid_law = { (lit≤ tt, le_trans (lit≤ tt) T.room_64_law) };
}

impl<T: AtLeast64> HasWidth<56> for T {
    ghost valid_law = { (lit≤ tt, le_trans (lit≤ tt) T.room_64_law) };
}

impl<T: AtLeast64> HasWidth<57> for T {
    ghost valid_law = { (lit≤ tt, le_trans (lit≤ tt) T.room_64_law) };
}

impl<T: AtLeast64> HasWidth<58> for T {
    ghost valid_law = { (lit≤ tt, le_trans (lit≤ tt) T.room_64_law) };
}

impl<T: AtLeast64> HasWidth<59> for T {
    ghost valid_law = { (lit≤ tt, le_trans (lit≤ tt) T.room_64_law) };
}

impl<T: AtLeast64> HasWidth<60> for T {
    ghost valid_law = { (lit≤ tt, le_trans (lit≤ tt) T.room_64_law) };
}

impl<T: AtLeast64> HasWidth<61> for T {
    ghost valid_law = { (lit≤ tt, le_trans (lit≤ tt) T.room_64_law) };
}

impl<T: AtLeast64> HasWidth<62> for T {
    ghost valid_law = { (lit≤ tt, le_trans (lit≤ tt) T.room_64_law) };
}

impl<T: AtLeast64> HasWidth<63> for T {
    ghost valid_law = { (lit≤ tt, le_trans (lit≤ tt) T.room_64_law) };
}

impl<T: AtLeast64> HasWidth<64> for T {
    ghost valid_law = { (lit≤ tt, T.room_64_law) };
}

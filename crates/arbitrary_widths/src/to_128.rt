//! The impls of `HasWidth` at 65 to 128 bits, for each storage with at least as many bits (`room`).
//! tools/short_names.py writes this file.

ghost use Rattle.std.proofs.Common.{lit≤, le_trans};

use crate::HasWidth;
use crate::room::AtLeast128;

impl<T: AtLeast128> HasWidth<65> for T {
    ghost valid_law = { (lit≤ tt, le_trans (lit≤ tt) T.room_128_law) };
}

impl<T: AtLeast128> HasWidth<66> for T {
    ghost valid_law = { (lit≤ tt, le_trans (lit≤ tt) T.room_128_law) };
}

impl<T: AtLeast128> HasWidth<67> for T {
    ghost valid_law = { (lit≤ tt, le_trans (lit≤ tt) T.room_128_law) };
}

impl<T: AtLeast128> HasWidth<68> for T {
    ghost valid_law = { (lit≤ tt, le_trans (lit≤ tt) T.room_128_law) };
}

impl<T: AtLeast128> HasWidth<69> for T {
    ghost valid_law = { (lit≤ tt, le_trans (lit≤ tt) T.room_128_law) };
}

impl<T: AtLeast128> HasWidth<70> for T {
    ghost valid_law = { (lit≤ tt, le_trans (lit≤ tt) T.room_128_law) };
}

impl<T: AtLeast128> HasWidth<71> for T {
    ghost valid_law = { (lit≤ tt, le_trans (lit≤ tt) T.room_128_law) };
}

impl<T: AtLeast128> HasWidth<72> for T {
    ghost valid_law = { (lit≤ tt, le_trans (lit≤ tt) T.room_128_law) };
}

impl<T: AtLeast128> HasWidth<73> for T {
    ghost valid_law = { (lit≤ tt, le_trans (lit≤ tt) T.room_128_law) };
}

impl<T: AtLeast128> HasWidth<74> for T {
    ghost valid_law = { (lit≤ tt, le_trans (lit≤ tt) T.room_128_law) };
}

impl<T: AtLeast128> HasWidth<75> for T {
    ghost valid_law = { (lit≤ tt, le_trans (lit≤ tt) T.room_128_law) };
}

impl<T: AtLeast128> HasWidth<76> for T {
    ghost valid_law = { (lit≤ tt, le_trans (lit≤ tt) T.room_128_law) };
}

impl<T: AtLeast128> HasWidth<77> for T {
    ghost valid_law = { (lit≤ tt, le_trans (lit≤ tt) T.room_128_law) };
}

impl<T: AtLeast128> HasWidth<78> for T {
    ghost valid_law = { (lit≤ tt, le_trans (lit≤ tt) T.room_128_law) };
}

impl<T: AtLeast128> HasWidth<79> for T {
    ghost valid_law = { (lit≤ tt, le_trans (lit≤ tt) T.room_128_law) };
}

impl<T: AtLeast128> HasWidth<80> for T {
    ghost valid_law = { (lit≤ tt, le_trans (lit≤ tt) T.room_128_law) };
}

impl<T: AtLeast128> HasWidth<81> for T {
    ghost valid_law = { (lit≤ tt, le_trans (lit≤ tt) T.room_128_law) };
}

impl<T: AtLeast128> HasWidth<82> for T {
    ghost valid_law = { (lit≤ tt, le_trans (lit≤ tt) T.room_128_law) };
}

impl<T: AtLeast128> HasWidth<83> for T {
    ghost valid_law = { (lit≤ tt, le_trans (lit≤ tt) T.room_128_law) };
}

impl<T: AtLeast128> HasWidth<84> for T {
    ghost valid_law = { (lit≤ tt, le_trans (lit≤ tt) T.room_128_law) };
}

impl<T: AtLeast128> HasWidth<85> for T {
    ghost valid_law = { (lit≤ tt, le_trans (lit≤ tt) T.room_128_law) };
}

impl<T: AtLeast128> HasWidth<86> for T {
    ghost valid_law = { (lit≤ tt, le_trans (lit≤ tt) T.room_128_law) };
}

impl<T: AtLeast128> HasWidth<87> for T {
    ghost valid_law = { (lit≤ tt, le_trans (lit≤ tt) T.room_128_law) };
}

impl<T: AtLeast128> HasWidth<88> for T {
    ghost valid_law = { (lit≤ tt, le_trans (lit≤ tt) T.room_128_law) };
}

impl<T: AtLeast128> HasWidth<89> for T {
    ghost valid_law = { (lit≤ tt, le_trans (lit≤ tt) T.room_128_law) };
}

impl<T: AtLeast128> HasWidth<90> for T {
    ghost valid_law = { (lit≤ tt, le_trans (lit≤ tt) T.room_128_law) };
}

impl<T: AtLeast128> HasWidth<91> for T {
    ghost valid_law = { (lit≤ tt, le_trans (lit≤ tt) T.room_128_law) };
}

impl<T: AtLeast128> HasWidth<92> for T {
    ghost valid_law = { (lit≤ tt, le_trans (lit≤ tt) T.room_128_law) };
}

impl<T: AtLeast128> HasWidth<93> for T {
    ghost valid_law = { (lit≤ tt, le_trans (lit≤ tt) T.room_128_law) };
}

impl<T: AtLeast128> HasWidth<94> for T {
    ghost valid_law = { (lit≤ tt, le_trans (lit≤ tt) T.room_128_law) };
}

impl<T: AtLeast128> HasWidth<95> for T {
    ghost valid_law = { (lit≤ tt, le_trans (lit≤ tt) T.room_128_law) };
}

impl<T: AtLeast128> HasWidth<96> for T {
    ghost valid_law = { (lit≤ tt, le_trans (lit≤ tt) T.room_128_law) };
}

impl<T: AtLeast128> HasWidth<97> for T {
    ghost valid_law = { (lit≤ tt, le_trans (lit≤ tt) T.room_128_law) };
}

impl<T: AtLeast128> HasWidth<98> for T {
    ghost valid_law = { (lit≤ tt, le_trans (lit≤ tt) T.room_128_law) };
}

impl<T: AtLeast128> HasWidth<99> for T {
    ghost valid_law = { (lit≤ tt, le_trans (lit≤ tt) T.room_128_law) };
}

impl<T: AtLeast128> HasWidth<100> for T {
    ghost valid_law = { (lit≤ tt, le_trans (lit≤ tt) T.room_128_law) };
}

impl<T: AtLeast128> HasWidth<101> for T {
    ghost valid_law = { (lit≤ tt, le_trans (lit≤ tt) T.room_128_law) };
}

impl<T: AtLeast128> HasWidth<102> for T {
    ghost valid_law = { (lit≤ tt, le_trans (lit≤ tt) T.room_128_law) };
}

impl<T: AtLeast128> HasWidth<103> for T {
    ghost valid_law = { (lit≤ tt, le_trans (lit≤ tt) T.room_128_law) };
}

impl<T: AtLeast128> HasWidth<104> for T {
    ghost valid_law = { (lit≤ tt, le_trans (lit≤ tt) T.room_128_law) };
}

impl<T: AtLeast128> HasWidth<105> for T {
    ghost valid_law = { (lit≤ tt, le_trans (lit≤ tt) T.room_128_law) };
}

impl<T: AtLeast128> HasWidth<106> for T {
    ghost valid_law = { (lit≤ tt, le_trans (lit≤ tt) T.room_128_law) };
}

impl<T: AtLeast128> HasWidth<107> for T {
    ghost valid_law = { (lit≤ tt, le_trans (lit≤ tt) T.room_128_law) };
}

impl<T: AtLeast128> HasWidth<108> for T {
    ghost valid_law = { (lit≤ tt, le_trans (lit≤ tt) T.room_128_law) };
}

impl<T: AtLeast128> HasWidth<109> for T {
    ghost valid_law = { (lit≤ tt, le_trans (lit≤ tt) T.room_128_law) };
}

impl<T: AtLeast128> HasWidth<110> for T {
    ghost valid_law = { (lit≤ tt, le_trans (lit≤ tt) T.room_128_law) };
}

impl<T: AtLeast128> HasWidth<111> for T {
    ghost valid_law = { (lit≤ tt, le_trans (lit≤ tt) T.room_128_law) };
}

impl<T: AtLeast128> HasWidth<112> for T {
    ghost valid_law = { (lit≤ tt, le_trans (lit≤ tt) T.room_128_law) };
}

impl<T: AtLeast128> HasWidth<113> for T {
    ghost valid_law = { (lit≤ tt, le_trans (lit≤ tt) T.room_128_law) };
}

impl<T: AtLeast128> HasWidth<114> for T {
    ghost valid_law = { (lit≤ tt, le_trans (lit≤ tt) T.room_128_law) };
}

impl<T: AtLeast128> HasWidth<115> for T {
    ghost valid_law = { (lit≤ tt, le_trans (lit≤ tt) T.room_128_law) };
}

impl<T: AtLeast128> HasWidth<116> for T {
    ghost valid_law = { (lit≤ tt, le_trans (lit≤ tt) T.room_128_law) };
}

impl<T: AtLeast128> HasWidth<117> for T {
    ghost valid_law = { (lit≤ tt, le_trans (lit≤ tt) T.room_128_law) };
}

impl<T: AtLeast128> HasWidth<118> for T {
    ghost valid_law = { (lit≤ tt, le_trans (lit≤ tt) T.room_128_law) };
}

impl<T: AtLeast128> HasWidth<119> for T {
    ghost valid_law = { (lit≤ tt, le_trans (lit≤ tt) T.room_128_law) };
}

impl<T: AtLeast128> HasWidth<120> for T {
    ghost valid_law = { (lit≤ tt, le_trans (lit≤ tt) T.room_128_law) };
}

impl<T: AtLeast128> HasWidth<121> for T {
    ghost valid_law = { (lit≤ tt, le_trans (lit≤ tt) T.room_128_law) };
}

impl<T: AtLeast128> HasWidth<122> for T {
    ghost valid_law = { (lit≤ tt, le_trans (lit≤ tt) T.room_128_law) };
}

impl<T: AtLeast128> HasWidth<123> for T {
    ghost valid_law = { (lit≤ tt, le_trans (lit≤ tt) T.room_128_law) };
}

impl<T: AtLeast128> HasWidth<124> for T {
    ghost valid_law = { (lit≤ tt, le_trans (lit≤ tt) T.room_128_law) };
}

impl<T: AtLeast128> HasWidth<125> for T {
    ghost valid_law = { (lit≤ tt, le_trans (lit≤ tt) T.room_128_law) };
}

impl<T: AtLeast128> HasWidth<126> for T {
    ghost valid_law = { (lit≤ tt, le_trans (lit≤ tt) T.room_128_law) };
}

impl<T: AtLeast128> HasWidth<127> for T {
    ghost valid_law = { (lit≤ tt, le_trans (lit≤ tt) T.room_128_law) };
}

impl<T: AtLeast128> HasWidth<128> for T {
    ghost valid_law = { (lit≤ tt, T.room_128_law) };
}

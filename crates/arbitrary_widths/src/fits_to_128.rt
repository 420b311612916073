//! The impls of `FitsIn` at 65 to 128 bits, for each storage with at most as many bits (`most`).
//! tools/short_names.py writes this file.

ghost use Rattle.std.proofs.Common.{lit≤, le_trans};

use crate::FitsIn;
use crate::most::{AtMost64, AtMost128};

impl<T: AtMost64> FitsIn<65> for T {
    ghost fits_law = { le_trans T.most_64_law (lit≤ tt) };
}

impl<T: AtMost64> FitsIn<66> for T {
    ghost fits_law = { le_trans T.most_64_law (lit≤ tt) };
}

impl<T: AtMost64> FitsIn<67> for T {
    ghost fits_law = { le_trans T.most_64_law (lit≤ tt) };
}

impl<T: AtMost64> FitsIn<68> for T {
    ghost fits_law = { le_trans T.most_64_law (lit≤ tt) };
}

impl<T: AtMost64> FitsIn<69> for T {
    ghost fits_law = { le_trans T.most_64_law (lit≤ tt) };
}

impl<T: AtMost64> FitsIn<70> for T {
    ghost fits_law = { le_trans T.most_64_law (lit≤ tt) };
}

impl<T: AtMost64> FitsIn<71> for T {
    ghost fits_law = { le_trans T.most_64_law (lit≤ tt) };
}

impl<T: AtMost64> FitsIn<72> for T {
    ghost fits_law = { le_trans T.most_64_law (lit≤ tt) };
}

impl<T: AtMost64> FitsIn<73> for T {
    ghost fits_law = { le_trans T.most_64_law (lit≤ tt) };
}

impl<T: AtMost64> FitsIn<74> for T {
    ghost fits_law = { le_trans T.most_64_law (lit≤ tt) };
}

impl<T: AtMost64> FitsIn<75> for T {
    ghost fits_law = { le_trans T.most_64_law (lit≤ tt) };
}

impl<T: AtMost64> FitsIn<76> for T {
    ghost fits_law = { le_trans T.most_64_law (lit≤ tt) };
}

impl<T: AtMost64> FitsIn<77> for T {
    ghost fits_law = { le_trans T.most_64_law (lit≤ tt) };
}

impl<T: AtMost64> FitsIn<78> for T {
    ghost fits_law = { le_trans T.most_64_law (lit≤ tt) };
}

impl<T: AtMost64> FitsIn<79> for T {
    ghost fits_law = { le_trans T.most_64_law (lit≤ tt) };
}

impl<T: AtMost64> FitsIn<80> for T {
    ghost fits_law = { le_trans T.most_64_law (lit≤ tt) };
}

impl<T: AtMost64> FitsIn<81> for T {
    ghost fits_law = { le_trans T.most_64_law (lit≤ tt) };
}

impl<T: AtMost64> FitsIn<82> for T {
    ghost fits_law = { le_trans T.most_64_law (lit≤ tt) };
}

impl<T: AtMost64> FitsIn<83> for T {
    ghost fits_law = { le_trans T.most_64_law (lit≤ tt) };
}

impl<T: AtMost64> FitsIn<84> for T {
    ghost fits_law = { le_trans T.most_64_law (lit≤ tt) };
}

impl<T: AtMost64> FitsIn<85> for T {
    ghost fits_law = { le_trans T.most_64_law (lit≤ tt) };
}

impl<T: AtMost64> FitsIn<86> for T {
    ghost fits_law = { le_trans T.most_64_law (lit≤ tt) };
}

impl<T: AtMost64> FitsIn<87> for T {
    ghost fits_law = { le_trans T.most_64_law (lit≤ tt) };
}

impl<T: AtMost64> FitsIn<88> for T {
    ghost fits_law = { le_trans T.most_64_law (lit≤ tt) };
}

impl<T: AtMost64> FitsIn<89> for T {
    ghost fits_law = { le_trans T.most_64_law (lit≤ tt) };
}

impl<T: AtMost64> FitsIn<90> for T {
    ghost fits_law = { le_trans T.most_64_law (lit≤ tt) };
}

impl<T: AtMost64> FitsIn<91> for T {
    ghost fits_law = { le_trans T.most_64_law (lit≤ tt) };
}

impl<T: AtMost64> FitsIn<92> for T {
    ghost fits_law = { le_trans T.most_64_law (lit≤ tt) };
}

impl<T: AtMost64> FitsIn<93> for T {
    ghost fits_law = { le_trans T.most_64_law (lit≤ tt) };
}

impl<T: AtMost64> FitsIn<94> for T {
    ghost fits_law = { le_trans T.most_64_law (lit≤ tt) };
}

impl<T: AtMost64> FitsIn<95> for T {
    ghost fits_law = { le_trans T.most_64_law (lit≤ tt) };
}

impl<T: AtMost64> FitsIn<96> for T {
    ghost fits_law = { le_trans T.most_64_law (lit≤ tt) };
}

impl<T: AtMost64> FitsIn<97> for T {
    ghost fits_law = { le_trans T.most_64_law (lit≤ tt) };
}

impl<T: AtMost64> FitsIn<98> for T {
    ghost fits_law = { le_trans T.most_64_law (lit≤ tt) };
}

impl<T: AtMost64> FitsIn<99> for T {
    ghost fits_law = { le_trans T.most_64_law (lit≤ tt) };
}

impl<T: AtMost64> FitsIn<100> for T {
    ghost fits_law = { le_trans T.most_64_law (lit≤ tt) };
}

impl<T: AtMost64> FitsIn<101> for T {
    ghost fits_law = { le_trans T.most_64_law (lit≤ tt) };
}

impl<T: AtMost64> FitsIn<102> for T {
    ghost fits_law = { le_trans T.most_64_law (lit≤ tt) };
}

impl<T: AtMost64> FitsIn<103> for T {
    ghost fits_law = { le_trans T.most_64_law (lit≤ tt) };
}

impl<T: AtMost64> FitsIn<104> for T {
    ghost fits_law = { le_trans T.most_64_law (lit≤ tt) };
}

impl<T: AtMost64> FitsIn<105> for T {
    ghost fits_law = { le_trans T.most_64_law (lit≤ tt) };
}

impl<T: AtMost64> FitsIn<106> for T {
    ghost fits_law = { le_trans T.most_64_law (lit≤ tt) };
}

impl<T: AtMost64> FitsIn<107> for T {
    ghost fits_law = { le_trans T.most_64_law (lit≤ tt) };
}

impl<T: AtMost64> FitsIn<108> for T {
    ghost fits_law = { le_trans T.most_64_law (lit≤ tt) };
}

impl<T: AtMost64> FitsIn<109> for T {
    ghost fits_law = { le_trans T.most_64_law (lit≤ tt) };
}

impl<T: AtMost64> FitsIn<110> for T {
    ghost fits_law = { le_trans T.most_64_law (lit≤ tt) };
}

impl<T: AtMost64> FitsIn<111> for T {
    ghost fits_law = { le_trans T.most_64_law (lit≤ tt) };
}

impl<T: AtMost64> FitsIn<112> for T {
    ghost fits_law = { le_trans T.most_64_law (lit≤ tt) };
}

impl<T: AtMost64> FitsIn<113> for T {
    ghost fits_law = { le_trans T.most_64_law (lit≤ tt) };
}

impl<T: AtMost64> FitsIn<114> for T {
    ghost fits_law = { le_trans T.most_64_law (lit≤ tt) };
}

impl<T: AtMost64> FitsIn<115> for T {
    ghost fits_law = { le_trans T.most_64_law (lit≤ tt) };
}

impl<T: AtMost64> FitsIn<116> for T {
    ghost fits_law = { le_trans T.most_64_law (lit≤ tt) };
}

impl<T: AtMost64> FitsIn<117> for T {
    ghost fits_law = { le_trans T.most_64_law (lit≤ tt) };
}

impl<T: AtMost64> FitsIn<118> for T {
    ghost fits_law = { le_trans T.most_64_law (lit≤ tt) };
}

impl<T: AtMost64> FitsIn<119> for T {
    ghost fits_law = { le_trans T.most_64_law (lit≤ tt) };
}

impl<T: AtMost64> FitsIn<120> for T {
    ghost fits_law = { le_trans T.most_64_law (lit≤ tt) };
}

impl<T: AtMost64> FitsIn<121> for T {
    ghost fits_law = { le_trans T.most_64_law (lit≤ tt) };
}

impl<T: AtMost64> FitsIn<122> for T {
    ghost fits_law = { le_trans T.most_64_law (lit≤ tt) };
}

impl<T: AtMost64> FitsIn<123> for T {
    ghost fits_law = { le_trans T.most_64_law (lit≤ tt) };
}

impl<T: AtMost64> FitsIn<124> for T {
    ghost fits_law = { le_trans T.most_64_law (lit≤ tt) };
}

impl<T: AtMost64> FitsIn<125> for T {
    ghost fits_law = { le_trans T.most_64_law (lit≤ tt) };
}

impl<T: AtMost64> FitsIn<126> for T {
    ghost fits_law = { le_trans T.most_64_law (lit≤ tt) };
}

impl<T: AtMost64> FitsIn<127> for T {
    ghost fits_law = { le_trans T.most_64_law (lit≤ tt) };
}

impl<T: AtMost128> FitsIn<128> for T {
    ghost fits_law = { T.most_128_law };
}

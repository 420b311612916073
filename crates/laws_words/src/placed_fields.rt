//! Fields of a word at a variable place, as in a register with two bits for each pin: written, cleared and read
//! back. The other fields do not change, and a function about them names a set of its own.
#![tactic(auto, using(arbitrary_laws::proofs::fields::PlacedField::placed_fields))]

ghost use Rattle.std.specs.Prelude.{◌≡◌, ◌≢◌, ◌+◌, ◌*◌, ◌/◌, ◌%◌, ◌^◌, ◌≤◌, ◌<◌, pos, unsigned_abs, IsTrue};

use arbitrary_int::prelude::*;

// ---- the field itself

pub fn mode_read_back(modes: u32, pin: u4, mode: u2) -> u2
    ensures { result ≡ mode }
{
    let place = u32::from(pin.value()) * 2;
    let written = (modes & !(3 << place)) | (mode.as_u32() << place);
    ((written >> place) & 3).as_::<u2>()
}

pub fn mode_extracted(modes: u32, pin: u4, mode: u2) -> u2
    ensures { result ≡ mode }
{
    let place = usize::from(pin.value()) * 2;
    let written = (modes & !(3u32 << place)) | (u32::from_(mode) << place);
    u2::extract_u32(written, place)
}

pub fn set_mode(modes: &mut u32, pin: u4, mode: u2)
    ensures { pos (modes.new / 2 ^ (unsigned_abs pin * 2) % 4) ≡ mode }
{
    let place = u32::from(pin.value()) * 2;
    *modes = (*modes & !(3 << place)) | (u32::from(mode.value()) << place);
}

pub fn cleared(modes: u64, pin: u4) -> bool
    ensures { IsTrue result }
{
    let place = u32::from(pin.value()) * 4;
    ((modes & !(15 << place)) >> place) & 15 == 0
}

pub fn slot_of_24_bits(word: u24, slot: u2, value: u6) -> u6
    ensures { result ≡ value }
{
    let place = u32::from(slot.value()) * 6;
    let written = (word & !(u24::new(63) << place)) | (u24::from_(value) << place);
    u6::new(((written >> place).as_u32() & 63) as u8)
}

// ---- the others

#[tactic(auto, using(arbitrary_laws::proofs::fields::PlacedField::other_fields))]
pub fn other_mode_stays(modes: u32, pin: u4, other: u4, mode: u2) -> bool
    requires { pin ≢ other }
    ensures { IsTrue result }
{
    let place = usize::from(pin.value()) * 2;
    let other_place = usize::from(other.value()) * 2;
    let written = (modes & !(3u32 << place)) | (u32::from_(mode) << place);
    u2::extract_u32(written, other_place) == u2::extract_u32(modes, other_place)
}

#[tactic(auto, using(arbitrary_laws::proofs::fields::PlacedField::other_fields))]
pub fn number_below(modes: u32, place: u32, other: u32, mode: u2) -> u32
    requires inside { place < 31 }
    requires apart { other + 2 ≤ place }
    ensures { result ≡ modes / 2 ^ other % 4 }
{
    let written = (modes & !(3 << place)) | (mode.as_u32() << place);
    (written >> other) & 3
}

//! Fields of a record, of the library's types and of primitives.

ghost use Rattle.std.specs.Prelude.{◌≡◌, ◌%◌, pos, IsTrue};
ghost use Rattle.laws_words.specs.Frame.{IsWritten};

use arbitrary_int::prelude::*;
use bit_fields::{Record, disjoint};

// ---- read back

pub fn read_back(mut word: Record, x: u5) -> u5
    ensures { result ≡ x }
{
    word.put(3, x);
    word.get::<u5>(3)
}

pub fn signed_read_back(mut word: Record, x: i14) -> i14
    ensures { result ≡ x }
{
    word.put(100, x);
    word.get::<i14>(100)
}

pub fn byte_read_back(mut word: Record, x: u8) -> u8
    ensures { result ≡ x }
{
    word.put(8, x);
    word.get::<u8>(8)
}

pub fn first_of_two(mut word: Record, x: u5, y: i14) -> u5
    ensures { result ≡ x }
{
    word.put(3, x);
    word.put(100, y);
    word.get::<u5>(3)
}

pub fn second_of_three(mut word: Record, x: u5, y: i14, z: u9) -> i14
    ensures { result ≡ y }
{
    word.put(3, x);
    word.put(20, y);
    word.put(60, z);
    word.get::<i14>(20)
}

pub fn last_wins(mut word: Record, x: u5, y: u5) -> u5
    ensures { result ≡ y }
{
    word.put(3, x);
    word.put(3, y);
    word.get::<u5>(3)
}

// ---- what stays

pub fn neighbour_stays(word: Record, x: u5) -> bool
    ensures { IsTrue result }
{
    let before = word.get::<u8>(8);
    let mut changed = word;
    changed.put(3, x);
    changed.get::<u8>(8) == before
}

pub fn put_what_was_there(word: Record) -> u128
    ensures { result ≡ word.bits }
{
    let mut changed = word;
    let x = word.get::<u5>(3);
    changed.put(3, x);
    changed.bits
}

// ---- a field by plain arithmetic

pub fn low_byte(word: Record) -> u8
    ensures { result ≡ word.bits % 256 }
{
    word.get::<u8>(0)
}

pub fn small_signed(word: Record) -> i12
    requires { word.bits % 4096 ≡ 7 }
    ensures { result ≡ pos 7 }
{
    word.get::<i12>(0)
}

pub fn apart() -> bool
    ensures { IsTrue result }
{
    disjoint(0, 8, 8, 8)
}

#[tactic(auto, using(arbitrary_laws::proofs::fields::Rulesets::empty_word))]
pub fn of_nothing(x: u5) -> u128
    ensures { pos result ≡ x }
{
    let mut word = Record { bits: 0 };
    word.put(0, x);
    word.bits
}

// ---- a struct, whose contract is one word

#[derive(Clone, Copy, Debug, PartialEq, Eq)]
pub struct Frame {
    pub start: u1,
    pub kind: u3,
    pub channel: u4,
    pub length: u8,
    pub offset: i12,
    pub time: u20,
    pub level: i16,
}

pub fn write(frame: Frame, word: &mut Record)
    ensures { IsWritten word.new.bits frame }
{
    word.put(0, frame.start);
    word.put(1, frame.kind);
    word.put(4, frame.channel);
    word.put(8, frame.length);
    word.put(16, frame.offset);
    word.put(28, frame.time);
    word.put(48, frame.level);
}

pub fn read(word: &Record) -> Frame
    ensures { IsWritten word.now.bits result }
{
    Frame {
        start: word.get(0),
        kind: word.get(1),
        channel: word.get(4),
        length: word.get(8),
        offset: word.get(16),
        time: word.get(28),
        level: word.get(48),
    }
}

pub fn written_and_read(frame: Frame, word: &mut Record) -> Frame
    ensures { result ≡ frame }
{
    write(frame, word);
    read(word)
}

//! One of three fields that were joined by `|`, read back in the same function.
#![tactic(auto, using(arbitrary_laws::proofs::Sets::words))]

ghost use Rattle.std.specs.Prelude.{IsTrue};

use arbitrary_int::prelude::*;

pub fn first(hour: u5, minute: u6, second: u5) -> bool
    ensures { IsTrue result }
{
    let word = (hour.as_u16() << 11) | (minute.as_u16() << 5) | second.as_u16();
    (word >> 11).as_::<u5>() == hour
}

#[tactic(auto, using(arbitrary_laws::proofs::Sets::uint_words))]
pub fn middle_byte(a: u8, b: u8, c: u8) -> bool
    ensures { IsTrue result }
{
    let word = (u24::from_(a) << 16) | (u24::from_(b) << 8) | u24::from_(c);
    (word >> 8).as_u8() == b
}

pub fn destination_extracted(rest: u20, register: u5, operation: u7) -> bool
    ensures { IsTrue result }
{
    let word = (rest.value() << 12) | (register.as_u32() << 7) | operation.as_u32();
    u5::extract_u32(word, 7) == register
}

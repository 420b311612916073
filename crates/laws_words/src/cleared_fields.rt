//! Fields that are written in place into a number of these types. The other bits do not change.
#![tactic(auto, using(arbitrary_laws::proofs::words::JoinedReads::masked_reads))]

ghost use Rattle.std.specs.Prelude.{◌≡◌, ◌/◌, ◌%◌, unsigned_abs};

use arbitrary_int::prelude::*;

pub fn written(register: u24, field: u4) -> u24
    ensures above { unsigned_abs result / 256 ≡ unsigned_abs register / 256 }
    ensures below { unsigned_abs result % 16 ≡ unsigned_abs register % 16 }
    ensures field { unsigned_abs result / 16 % 16 ≡ unsigned_abs field }
{
    (register & !u24::new(0xF0)) | (u24::from_(field) << 4)
}

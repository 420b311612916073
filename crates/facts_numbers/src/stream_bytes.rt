//! Facts about the bytes of a value in a stream: their number, and the value that is read from them.

ghost use Rattle.std.specs.Prelude.{◌≡◌, ◌<◌, ◌+◌, ◌*◌, ◌↔◌, pos, IsSome, IfSome};
ghost use Rattle.arbitrary_int.specs.Residue.{Congruent};

use arbitrary_int::prelude::*;

pub fn two_bytes(x: u12, out: &mut [u8; 16]) -> usize
    ensures { result ≡ 2 }
{
    x.to_borsh_bytes(out)
}

pub fn one_byte_of_signed(x: i7, out: &mut [u8; 16]) -> usize
    ensures { result ≡ 1 }
{
    x.to_borsh_bytes(out)
}

pub fn number_of_two_bytes(low: u8, high: u8) -> Option<u12>
    ensures canonical { IsSome result ↔ (high < 16) }
    ensures number { IfSome result (λ x. x ≡ pos (low + high * 256)) }
{
    u12::from_borsh_bytes(&[low, high])
}

pub fn signed_number_of_two_bytes(low: u8, high: u8) -> Option<i12>
    ensures { IfSome result (λ x. Congruent 12 x (pos (low + high * 256))) }
{
    i12::from_borsh_bytes(&[low, high])
}

//! Addresses: an offset in an aligned page, tags below a pointer, and pages that are compared.
#![tactic(auto, using(arbitrary_laws::proofs::Sets::words))]

ghost use Rattle.std.specs.Prelude.{◌≡◌, ◌↔◌, ◌/◌, ◌%◌, ◌*◌, ◌+◌, ◌<◌, ◌+ℤ◌, pos, int_rem, IsTrue};
ghost use Rattle.std.specs.Int.Bits.{bit_and};

use arbitrary_int::prelude::*;

/// An address in an aligned page.
pub fn in_page(page: u16, offset: u16) -> u16
    requires aligned { page % 512 ≡ 0 }
    requires small { offset < 512 }
    ensures { result ≡ page + offset }
{
    page | offset
}

/// The same where a mask says that the page is aligned, with the offset first.
#[tactic(auto, using(arbitrary_laws::proofs::words::Multiples::masked_multiples))]
pub fn in_page_by_mask(page: u32, offset: u32) -> u32
    requires aligned { bit_and page 4095 ≡ 0 }
    requires small { offset < 4096 }
    ensures { result ≡ page + offset }
{
    offset | page
}

/// The address of a register of 4 bytes.
pub fn register(base: u32, number: u8) -> u32
    requires aligned { base % 1024 ≡ 0 }
    ensures { result ≡ base + number * 4 }
{
    base | (u32::from(number) << 2)
}

/// A pointer with a tag below it.
pub fn tagged(pointer: u32, tag: u32) -> u32
    requires aligned { pointer % 4 ≡ 0 }
    requires small { tag < 4 }
    ensures pointer { result / 4 ≡ pointer / 4 }
    ensures tag { result % 4 ≡ tag }
{
    pointer | tag
}

/// A byte in a page of 24 bits.
pub fn byte_in_page(page: u24, offset: u8) -> u24
    requires aligned { int_rem page (pos 256) ≡ pos 0 }
    ensures { result ≡ page +ℤ pos offset }
{
    page | u24::from_(offset)
}

/// Whether two addresses are in one page.
pub fn same_page(a: u32, b: u32) -> bool
    ensures { IsTrue result ↔ (a / 65536 ≡ b / 65536) }
{
    (a ^ b) & 0xFFFF_0000 == 0
}

/// The lowest request that is pending.
pub fn lowest_pending(pending: u32) -> bool
    requires some { 0 < pending }
    ensures { IsTrue result }
{
    pending & pending.wrapping_neg() == 1 << pending.trailing_zeros()
}

/// Whether two addresses are in one line of a cache.
pub fn same_line(a: u32, b: u32) -> bool
    ensures { IsTrue result ↔ (a / 64 ≡ b / 64) }
{
    (a ^ b) >> 6 == 0
}

//! Numbers as text in other bases.

ghost use Rattle.std.specs.Prelude.{◌≡◌, IfOk, false, string_bytes, unsigned_abs};
ghost use Rattle.std.specs.Fmt.{digits};
ghost use Rattle.arbitrary_int.specs.Residue.{residue};

use arbitrary_int::prelude::*;
use std::alloc::{AllocError, Global};

/// A count in hexadecimal.
pub fn hexadecimal(alloc: Global, count: u14) -> Result<String, AllocError>
    ensures { IfOk result (λ text. string_bytes text ≡ digits 16 false (unsigned_abs count)) }
{
    format!(in alloc; "{count:x}")
}

/// The bits of a sample, in the 16 that keep it.
pub fn pattern(alloc: Global, sample: i12) -> Result<String, AllocError>
    ensures { IfOk result (λ text. string_bytes text ≡ digits 2 false (residue 16 sample)) }
{
    format!(in alloc; "{sample:b}")
}

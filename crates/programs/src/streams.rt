//! Values that are written to a stream, and read back.
#![tactic(auto, using(arbitrary_laws::proofs::bytes::Rulesets::streams))]

ghost use Rattle.std.specs.Prelude.{◌≡◌, IfOk, Some};

use arbitrary_int::Watched;
use arbitrary_int::prelude::*;
use std::alloc::Global;
use std::io;

pub fn borsh_and_back(x: u9) -> Option<u9>
    ensures { result ≡ Some x }
{
    let mut out = [0; 16];
    let length = x.to_borsh_bytes(&mut out);
    u9::from_borsh_bytes(&out[..length])
}

pub fn borsh_length(x: i12) -> usize
    ensures { result ≡ 2 }
{
    x.to_borsh_bytes(&mut [0; 16])
}

pub fn written_and_read(alloc: Global, x: u24) -> io::Result<u24>
    ensures { IfOk result (λ y. y ≡ x) }
{
    let mut log = Watched::new(Vec::new(alloc));
    x.serialize(&mut log)?;
    let bytes = log.into_inner();
    let found = u24::deserialize_reader(&mut Watched::new(bytes.as_slice()))?;
    Ok(found)
}

pub fn signed_and_back(x: i12) -> Option<i12>
    ensures { result ≡ Some x }
{
    let mut out = [0; 16];
    let length = x.to_borsh_bytes(&mut out);
    i12::from_borsh_bytes(&out[..length])
}

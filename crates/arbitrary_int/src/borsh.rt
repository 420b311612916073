//! `BorshSerialize` and `BorshDeserialize`: values in a stream of bytes.

ghost use Rattle.std.specs.Prelude.{◌≡◌, ◌≤◌, ℕ, pos, false, true, List, length, take, drop, IfOk, IfSome, OnOk, OnErr, MatchOption};
ghost use Rattle.std.specs.Int.{div_ceil};
ghost use Rattle.std.specs.Io.KnownBytes.{Appends, Consumes};
ghost use Rattle.arbitrary_base.specs.Watched.{inner_of, NoFailure, Failure};
ghost use Rattle.arbitrary_base.specs.ByteLists.{BorshBytes, Canonical, bytes_number};
ghost use Rattle.arbitrary_base.specs.Residue.{Congruent};
ghost use Rattle.arbitrary_base.specs.Streams.{AppendsBeginning};
ghost use Rattle.arbitrary_int.specs.Borsh.{Unreadable};

use arbitrary_base::byte_lists::{all_bytes, pattern_of};
use arbitrary_base::streams::{read_full, write_full};
use arbitrary_base::truncation::{low_bits, masked};
use arbitrary_base::watched::Watched;
use arbitrary_calls::stored::Stored;
use std::io;
use std::io::{ErrorKind, Read, Write};

/// A value that can be written to a stream. `UInt` and `Int` implement it at every width: they have
/// the bytes of the residue modulo `2 ^ BITS`, lowest first, in `BITS.div_ceil(8)` bytes.
pub trait BorshSerialize {
    // The bytes of a value.
    ghost bytes_of: { Self → List ℕ };

    // The number of these bytes.
    ghost size_of: { Self → ℕ };

    /// Writes the bytes of the value, and nothing else. An error is the writer's own, or
    /// `WriteZero` if it accepts no byte. A beginning of the bytes may then be written. No call is
    /// made after a failed one.
    fn serialize<W: Write>(&self, writer: &mut Watched<W>) -> io::Result<()>
        ensures all { let before = W.contents (inner_of writer.old) in
            let after = W.contents (inner_of writer.new) in
            OnOk result (Appends before after (bytes_of self.now)) }
        ensures no_failure { OnOk result (NoFailure writer.old writer.new) }
        ensures begun { let before = W.contents (inner_of writer.old) in
            let after = W.contents (inner_of writer.new) in
            OnErr result (AppendsBeginning before after (bytes_of self.now)) }
        ensures failed { OnErr result (Failure writer.old writer.new) };

    /// Puts the bytes of the value at the front of `out`, and returns their number. The rest of
    /// `out` does not change.
    fn to_borsh_bytes(&self, out: &mut [u8; 16]) -> usize
        ensures count { result ≡ length (bytes_of self.now) }
        ensures size { result ≡ size_of self.now }
        ensures bytes { take result out.new ≡ bytes_of self.now }
        ensures rest { drop result out.new ≡ drop result out.old };
}

/// A value that can be read from a stream. `UInt` and `Int` implement it at every width. Bytes are
/// canonical if there are `BITS.div_ceil(8)` of them and their number is below `2 ^ BITS`.
pub trait BorshDeserialize: Sized {
    // Whether the width is valid.
    ghost readable: { Type 0 };

    // The number of bytes of a value, which lists of bytes are canonical, and the bytes of each value.
    ghost count: { ℕ };

    ghost canonical: { List ℕ → Type 0 };

    ghost read_bytes: { Self → List ℕ };

    // How a value follows from its list of bytes.
    ghost decodes: { List ℕ → Self → Type 0 };

    /// Reads exactly the bytes of one value. An error is the reader's own, `UnexpectedEof` if the
    /// input ends before, or `InvalidData` if the bytes are not canonical: then they are read, and
    /// what follows is not. No call is made after a failed one. Requires a valid width.
    fn deserialize_reader<R: Read>(reader: &mut Watched<R>) -> io::Result<Self>
        requires { readable }
        ensures taken { let before = R.remaining (inner_of reader.old) in
            let after = R.remaining (inner_of reader.new) in
            IfOk result (λ x. Consumes before after (read_bytes x)) }
        ensures canonical { IfOk result (λ x. canonical (read_bytes x)) }
        ensures no_failure { OnOk result (NoFailure reader.old reader.new) }
        ensures why { let before = R.remaining (inner_of reader.old) in
            let after = R.remaining (inner_of reader.new) in OnErr result
            (Unreadable canonical before after (Failure reader.old reader.new) count) };

    /// The value with these bytes, or `None` exactly if they are not canonical. The number of a
    /// `UInt` is that of the bytes. Requires a valid width.
    fn from_borsh_bytes(bytes: &[u8]) -> Option<Self>
        requires { readable }
        ensures bytes { let is_canonical = canonical bytes.now in
            MatchOption result (¬ is_canonical) (λ x. is_canonical × (read_bytes x ≡ bytes.now)) }
        ensures value { IfSome result (decodes bytes.now) };
}

/// The bytes of the value, at the front of an array that has room for any value, and their number.
fn written<V: Stored>(value: V) -> ([u8; 16], usize)
    ensures count { result.1 ≡ length (BorshBytes V.BITS (V.number value)) }
    ensures size { result.1 ≡ div_ceil V.BITS 8 }
    ensures bound { result.1 ≤ 16 }
    ensures bytes { take result.1 result.0 ≡ BorshBytes V.BITS (V.number value) }
{
    let all = all_bytes(low_bits(value.to_storage(), V::BITS));
    (all, V::BITS.div_ceil(8))
}

impl<V: Stored> BorshSerialize for V {
    ghost bytes_of = { λ x. BorshBytes V.BITS (V.number x) };

    ghost size_of = { λ _. div_ceil V.BITS 8 };

    fn serialize<W: Write>(&self, writer: &mut Watched<W>) -> io::Result<()> {
        let (all, count) = written(*self);
        write_full(writer, &all[..count])
    }

    #[tactic(auto, using(arbitrary_base::proofs::bytes::StreamSteps::fronts))]
    fn to_borsh_bytes(&self, out: &mut [u8; 16]) -> usize {
        let (all, count) = written(*self);
        out[..count].copy_from_slice(&all[..count]);
        count
    }
}

impl<V: Stored> BorshDeserialize for V {
    ghost readable = { V.valid };

    ghost count = { div_ceil V.BITS 8 };

    ghost canonical = { Canonical V.BITS };

    ghost read_bytes = { λ x. BorshBytes V.BITS (V.number x) };

    ghost decodes = { λ bytes x. let spelled = pos (bytes_number bytes) in
        (V.IS_SIGNED ≡ false → V.number x ≡ spelled)
        × (V.IS_SIGNED ≡ true → Congruent V.BITS (V.number x) spelled) };

    fn deserialize_reader<R: Read>(reader: &mut Watched<R>) -> io::Result<V> {
        let mut all = [0; 16];
        let bytes = &mut all[..V::BITS.div_ceil(8)];
        read_full(reader, bytes)?;
        V::from_borsh_bytes(bytes).ok_or(io::Error::from(ErrorKind::InvalidData))
    }

    fn from_borsh_bytes(bytes: &[u8]) -> Option<V> {
        if bytes.len() != V::BITS.div_ceil(8) {
            return None;
        }
        let pattern = pattern_of(bytes);
        if masked(pattern, V::BITS) == pattern {
            Some(V::from_u128_bits(pattern))
        } else {
            None
        }
    }
}

//! Generic code with the bound `FixedWidth`, which is the only import.

ghost use Rattle.std.specs.Prelude.{◌≡◌, ◌≤◌, ◌+◌, ◌+ℤ◌, ◌*ℤ◌, pos, take, drop, count_by};
ghost use Rattle.arbitrary_int.specs.BitList.{bits, val};
ghost use Rattle.arbitrary_int.specs.Residue.{wrap};
ghost use Rattle.arbitrary_int.specs.Saturating.{clamp};

use arbitrary_int::traits::FixedWidth;

/// The sum, wrapped.
pub fn sum<V: FixedWidth>(x: V, y: V) -> V
    ensures { let sum = V.number x +ℤ V.number y in V.number result ≡ wrap V.IS_SIGNED V.BITS sum }
{
    x.wrapping_add(y)
}

/// The product, at most the greatest number and at least the least.
pub fn product<V: FixedWidth>(x: V, y: V) -> V
    ensures { let product = V.number x *ℤ V.number y in
        V.number result ≡ clamp V.IS_SIGNED V.BITS product }
{
    x.saturating_mul(y)
}

/// The sum, by a path of the type.
pub fn sum_by_type<V: FixedWidth>(x: V, y: V) -> V
    ensures { let sum = V.number x +ℤ V.number y in V.number result ≡ wrap V.IS_SIGNED V.BITS sum }
{
    V::wrapping_add(x, y)
}

/// How many bits are one.
pub fn count_ones<V: FixedWidth>(x: V) -> u32
    ensures { result ≡ count_by (λ b. b) (bits V.BITS (V.number x)) }
{
    x.count_ones()
}

/// The value moved up by one place, round the end.
pub fn turned<V: FixedWidth>(x: V) -> V {
    x.rotate_left(1)
}

/// A field of a word.
pub fn field<V: FixedWidth>(word: u32, start_bit: usize) -> V
    requires width { V.valid }
    requires within { start_bit + V.BITS ≤ 32 }
    ensures { let list = take V.BITS (drop start_bit (bits 32 (pos word))) in
        V.number result ≡ val V.IS_SIGNED list }
{
    V::extract_u32(word, start_bit)
}

/// A signed field of a word with a sign.
pub fn signed_field<V: FixedWidth>(word: i64, start_bit: usize) -> V
    requires width { V.valid }
    requires within { start_bit + V.BITS ≤ 64 }
    ensures { let list = take V.BITS (drop start_bit (bits 64 word)) in
        V.number result ≡ val V.IS_SIGNED list }
{
    V::extract_i64(word, start_bit)
}

/// A call of `Integer`, of which `FixedWidth` is a kind.
pub fn low_byte<V: FixedWidth>(x: V) -> u8 {
    x.as_u8()
}

//! The bytes of a pattern, lowest first.

ghost use Rattle.std.specs.Prelude.{◌≡◌, ◌≤◌, ◌<◌, ◌*◌, ◌^◌, ℕ, pos, length, take};
ghost use Rattle.arbitrary_base.specs.ByteLists.{bytes, bytes_number};

/// The 16 bytes of a pattern, lowest first.
#[tactic(auto, using(crate::proofs::bytes::NumberOfBytes::front_bytes))]
pub fn all_bytes(pattern: u128) -> [u8; 16]
    ensures { (n : ℕ) → n ≤ 16 → take n result ≡ bytes n (pos pattern) }
{
    pattern.to_le_bytes()
}

/// The pattern with these bytes, lowest first. There are at most 16.
pub fn pattern_of(list: &[u8]) -> u128
    requires { length list.now ≤ 16 }
    ensures value { result ≡ bytes_number list.now }
    ensures bytes { bytes (length list.now) (pos result) ≡ list.now }
    ensures fits { result < 2 ^ (8 * length list.now) }
{
    let mut pattern = 0u128;
    for i in (0..list.len()).rev() {
        pattern = pattern * 256 + list[i] as u128;
    }
    pattern
}

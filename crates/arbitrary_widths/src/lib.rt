//! Which widths fit a storage, as traits. With `HasWidth`, a function without arguments, such as std's `default`,
//! can make a value at every valid width. `to_64` and `to_128` have its impls, and `fits_to_64` and `fits_to_128`
//! those of `FitsIn`. In a larger crate, these impls would take longer to check than they do here.
#![tactic(auto)]

ghost use Rattle.std.specs.Prelude.{◌≤◌};
ghost use Rattle.std.specs.Int.{IsInRange};

use arbitrary_base::storage::Storage;

pub mod fits_to_128;
pub mod fits_to_64;
pub mod most;
pub mod room;
pub mod to_128;
pub mod to_64;

/// The storage has room for `B` bits. A storage implements it for every `B` from 1 to its own
/// width, and for no other.
pub trait HasWidth<const B: usize>: Storage {
    ghost valid_law: { IsInRange 1 Self.WIDTH B };
}

/// Each number of the storage fits in `B` bits. A storage implements it for every `B` from its own
/// width to 128, and for no other.
pub trait FitsIn<const B: usize>: Storage {
    ghost fits_law: { Self.WIDTH ≤ B };
}

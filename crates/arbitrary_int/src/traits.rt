//! The traits of the integer types, for the bounds of generic code. `prelude` has these and the types.

pub use crate::constants::Constants;
pub use crate::constants::valid::ValidWidth;
pub use arbitrary_base::storage::{
    BuiltinInteger, SignedOf, SignedStorage, Storage, UnsignedOf, UnsignedStorage,
};
pub use arbitrary_calls::calls::FixedWidthCalls;
pub use arbitrary_calls::calls::counts::CountCalls;
pub use arbitrary_calls::calls::products::ProductCalls;
pub use arbitrary_calls::calls::shifts::ShiftCalls;
pub use arbitrary_calls::calls::sums::SumCalls;
pub use arbitrary_calls::extraction::Extraction;
pub use arbitrary_calls::fixed_width::FixedWidth;
pub use arbitrary_calls::stored::Stored;
pub use arbitrary_traits::counterparts::{SignedCounterpart, UnsignedCounterpart};
pub use arbitrary_traits::integer::{Integer, SignedInteger, UnsignedInteger};
pub use arbitrary_traits::numbered::Numbered;
pub use arbitrary_traits::shift_amount::ShiftAmount;
pub use arbitrary_widths::{FitsIn, HasWidth};

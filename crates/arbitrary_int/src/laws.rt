//! The laws of the words in contracts: `wrap`, `clamp`, `power`, checked results, bit lists, bytes and totals, and
//! truncation at two widths. `arbitrary_base` has the functions. A call adds its laws to the proof of the caller,
//! and does nothing else.

pub use arbitrary_base::laws::{
    bit_list_laws, byte_laws, checked_laws, low_bit_laws, range_laws, total_laws, wrap_laws,
    wrapped_arithmetic_laws,
};
pub use arbitrary_base::power::power_laws;

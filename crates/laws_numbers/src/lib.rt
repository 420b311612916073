//! Laws about sums, differences and products that wrap, with their bits, signs and orders, and about quotients, conversions,
//! constants and bytes, most at `u12` and `i12`. Each function compares two sides, and ensures that they are equal. None has a
//! proof of its own: each file or function names one set of laws.
#![tactic(auto)]

pub mod at_most_sums;
pub mod averages;
pub mod bit_sums;
pub mod cancellations;
pub mod carries;
pub mod complement_parts;
pub mod complements;
pub mod distances;
pub mod documented_calls;
pub mod exact;
pub mod exact_sums;
pub mod extensions;
pub mod known_numbers;
pub mod low_sums;
pub mod mixed;
pub mod multiples;
pub mod negated_parts;
pub mod offsets;
pub mod order;
pub mod overflow_bits;
pub mod products;
pub mod quotient_order;
pub mod quotient_parts;
pub mod remainders;
pub mod ring;
pub mod saturations;
pub mod scaled_numbers;
pub mod serial_numbers;
pub mod sign_extensions;
pub mod sign_masks;
pub mod sign_tests;
pub mod signed_order;
pub mod signs;
pub mod swapped_words;
pub mod truncations;
pub mod zigzag_codes;

//! Laws about `&`, `|`, `^` and `!`, masks, bits at their places and their counts, and about shifts, rotations and reversals,
//! also by variable amounts, most at `u12` and `i12`. Each function compares two sides, and ensures that they are equal. None
//! has a proof of its own: each file or function names one set of laws, and one function names two.
#![tactic(auto)]

pub mod at_most_one_bit;
pub mod back_rotations;
pub mod bit_by_bit;
pub mod bit_places;
pub mod bits;
pub mod converted_counts;
pub mod count_bounds;
pub mod counts;
pub mod distribution;
pub mod fields;
pub mod foldings;
pub mod joined_words;
pub mod known_counts;
pub mod leading_zeros;
pub mod lowest_bit_counts;
pub mod lowest_bits;
pub mod lowest_masks;
pub mod lowest_place;
pub mod mask_digits;
pub mod mask_tests;
pub mod masked_results;
pub mod masks;
pub mod moved_bits;
pub mod normal_shifts;
pub mod one_bits;
pub mod operations;
pub mod parities;
pub mod population;
pub mod reversals;
pub mod right_rotations;
pub mod rotations;
pub mod runs_of_two;
pub mod shifts;
pub mod signed;
pub mod trailing_zeros;
pub mod variable_masks;
pub mod variable_parts;
pub mod variable_places;
pub mod written_masks;

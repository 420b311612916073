//! Words of fields and flags as programs use them: joined, written in place, read back and tested, and register words under
//! constant masks, with contracts in quotients and remainders. None has a proof of its own: the contracts of the calls are
//! enough, with at most one set of laws.
#![tactic(auto)]

pub mod addresses;
pub mod assigned_flags;
pub mod cleared_fields;
pub mod device_registers;
pub mod fields;
pub mod fields_at_once;
pub mod flags;
pub mod instruction_words;
pub mod instructions;
pub mod low_masks;
pub mod masked_fields;
pub mod moved_in;
pub mod network_words;
pub mod overflow_flags;
pub mod packing;
pub mod placed_fields;
pub mod primitive_bits;
pub mod primitive_flags;
pub mod read_back;
pub mod registers;
pub mod replaced_fields;
pub mod side_by_side;
pub mod signed_fields;
pub mod signed_words;
pub mod tested_flags;
pub mod words;
pub mod words_of_uint;
pub mod written_signs;

//! The import that each form of a call needs. Each module imports one trait, or none. `vectors_examples` has the tests.

pub mod by_fixed_width;
pub mod by_integer;
pub mod by_storage;
pub mod by_type;

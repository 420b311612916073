//! The code on the pages: the functions of the README, the forms of docs/PROVING.md, the constants and imports of docs/DIFFERENCES.md, and
//! facts of docs/SETS.md. `vectors_examples` has the tests.
#![tactic(auto)]

pub mod clauses;
pub mod conditions;
pub mod constants;
pub mod copies;
pub mod fields;
pub mod first;
pub mod generic;
pub mod imports;
pub mod places;
pub mod sets;
pub mod storages;

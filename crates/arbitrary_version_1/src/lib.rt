//! The trait `Number` of the first version of the Rust crate, which is deprecated.
#![tactic(auto)]

// This is a crate of its own, with a name after `arbitrary_traits`: if a call of `Numbered` has no trait in scope, the compiler's help
// names the first crate that has such a trait.
pub mod number;

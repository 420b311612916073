//! The examples of the pages, and tests of the crates `pages` and `bit_fields`. These have no tests of their own, because the
//! gate proves a crate with tests twice.
#![tactic(auto)]

#[cfg(test)]
mod calls;
#[cfg(test)]
mod fields;
#[cfg(test)]
mod first;
#[cfg(test)]
mod from_rust;
#[cfg(test)]
mod imported;
#[cfg(test)]
mod same;

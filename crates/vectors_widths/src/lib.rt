//! The calls at the ends of the range and next to them, at widths of every storage, compared with the arithmetic of the primitives;
//! and the ends themselves at every width of both signs, compared with numbers that Python computed from the definitions.
//!
//! The contracts state what each call returns. These tests compute it in another way.
#![tactic(auto)]

#[cfg(test)]
mod arithmetic;
#[cfg(test)]
mod bits;
#[cfg(test)]
mod counted;
#[cfg(test)]
mod counterparts;
#[cfg(test)]
mod ends;
#[cfg(test)]
mod operands;
#[cfg(test)]
mod signed;
#[cfg(test)]
mod steps;
#[cfg(test)]
mod storages;
#[cfg(test)]
mod unsigned;

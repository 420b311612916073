//! Test vectors of the calls, and of the functions of `arbitrary_base`. Each expected result comes from outside the
//! library.
#![tactic(auto)]

#[cfg(test)]
mod arithmetic;
#[cfg(test)]
mod base;
#[cfg(test)]
mod bits;
#[cfg(test)]
mod bytes;
#[cfg(test)]
mod ends;
#[cfg(test)]
mod first_version;
#[cfg(test)]
mod keys;
#[cfg(test)]
mod powers;
#[cfg(test)]
mod primitives;
#[cfg(test)]
mod ranges;
#[cfg(test)]
mod same;
#[cfg(test)]
mod signs;
#[cfg(test)]
mod steps;
#[cfg(test)]
mod streams;
#[cfg(test)]
mod texts;
#[cfg(test)]
mod widths;

//! Short names for the widths that no primitive has.

pub mod signed;
pub mod unsigned;

//! The limits of scenarios.

/// The largest number of witnesses.
pub(crate) const MOST_WITNESSES: u8 = 8;

/// The largest number of nodes.
pub(crate) const MOST_NODES: usize = 64;

/// The largest number of lines, with skipped ones counted.
pub(crate) const MOST_LINES: usize = 1_000;

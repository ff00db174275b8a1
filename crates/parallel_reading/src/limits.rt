//! Limits.

/// The largest number of items that workers are given at once.
pub(crate) const MOST_AT_ONCE: u64 = 4096;

/// A number of bytes. Once the texts of the items have so many, workers are given no further item.
pub(crate) const ENOUGH_AT_ONCE: usize = 4_194_304;

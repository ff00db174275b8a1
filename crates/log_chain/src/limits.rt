//! Limits of logs.

/// The greatest length of an entry's content, in bytes.
pub const LONGEST_CONTENT: usize = 131_072;

/// The greatest number of entries in a segment, and in the log of a node.
pub const MOST_ENTRIES: usize = 4096;

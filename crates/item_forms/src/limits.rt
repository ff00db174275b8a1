//! Limits of items.

/// The greatest number of bytes of an item's encoding. A segment has as many if it has 4,096 entries with the longest content each, and
/// the longest signature text.
pub const LONGEST_ITEM: usize = 536_933_530;

//! Segments by their numbers.

/// The place of a segment, with bounds of the numbers of the statements that can contradict it.
#[derive(Clone, Copy, Debug, Drop)]
pub struct Span {
    /// The place of the segment.
    pub item: u32,
    /// The segment's low number. A statement that contradicts it has a number of at least `low - 2`.
    pub low: u64,
    /// The segment's last number. A statement that contradicts it has a number of at most `last`.
    pub last: u64,
}

//! What exposes a node, by places.

use crate::row::Row;

/// What exposes a node, by the places where it stands. These places stay.
#[derive(Clone, Copy, Debug)]
pub enum ExposingPlaces {
    /// Two statements with one number and two hashes.
    TwoHashes(Row, Row),
    /// A statement, and the place of a segment that it contradicts.
    Denied(Row, u32),
    /// The place of a segment that deviates.
    Deviates(u32),
}

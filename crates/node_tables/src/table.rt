//! What is kept of one node.

use crate::exposure::ExposingPlaces;
use crate::hashes::Hashes;
use crate::receipt_list::ReceiptList;
use crate::row::Row;
use crate::span_list::SpanList;
use authenticators::NodeId;
use tiered_vec::TieredVec;

/// What is kept of one node, by the places of its items.
#[derive(Drop)]
pub struct Table {
    /// The node.
    pub node: NodeId,
    /// The node's statements, ascending by number, hash and signature.
    pub rows: TieredVec<Row>,
    /// The messages that the node sent and of which segments have receipts.
    pub receipts: ReceiptList,
    /// The node's segments, by their numbers.
    pub spans: SpanList,
    /// The places of the challenges against the node that nothing answers, ascending by their encodings.
    pub unanswered: TieredVec<u32>,
    /// The entries of the node's segments, and its unanswered audit challenges, by hashes.
    pub hashes: Hashes,
    /// What exposes the node, if something does.
    pub exposure: Option<ExposingPlaces>,
    /// How many statements were promised room and have not come yet.
    pub promised: usize,
    /// How many segments, challenges or acknowledgements were promised room and have not come yet.
    pub bodies: usize,
}

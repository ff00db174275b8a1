//! The numbers at which statements are in conflict.

use crate::node::NodeId;

/// A node, and a number at which two of its statements may be in conflict.
#[derive(Clone, Copy, Debug, Drop)]
pub(crate) struct Clash {
    pub(crate) node: NodeId,
    pub(crate) seq: u64,
}

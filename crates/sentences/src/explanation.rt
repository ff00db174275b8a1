//! What is said of one input, in sentences.

use authenticators::NodeId;
use evidence_set::Indication;
use log_chain::Hash;

/// The number of an entry in a node's log.
#[derive(Clone, Copy, Debug, PartialEq, Eq)]
pub struct Mark {
    /// The node whose log has the entry.
    pub node: NodeId,
    /// The entry's number.
    pub seq: u64,
}

/// An entry that contradicts something. Entries that have its number and another hash do not.
#[derive(Clone, Copy, Debug, PartialEq, Eq)]
pub struct NamedHash {
    /// The node whose log has the entry.
    pub node: NodeId,
    /// The entry's number.
    pub seq: u64,
    /// The entry's hash.
    pub hash: Hash,
}

/// One sentence about a node.
#[derive(Debug, Drop)]
pub struct Sentence {
    /// The sentence, with its full stop and without a line feed.
    pub text: String,
    /// The numbers of entries of which the sentence says that they contradict something.
    pub marks: Vec<Mark>,
    /// The entries that contradict something, and that the sentence names or speaks of.
    pub named: Vec<NamedHash>,
}

/// What is said of a node.
#[derive(Debug, Drop)]
pub struct NodeExplanation {
    /// The node.
    pub node: NodeId,
    /// What the evidence says of it.
    pub indication: Indication,
    /// Whether no item is of the node. If so, the node is trusted for want of evidence.
    pub has_no_item: bool,
    /// The reasons, in order.
    pub sentences: Vec<Sentence>,
}

/// What is said of a store or of a proof.
#[derive(Debug, Drop)]
pub struct Explanation {
    /// One line about the whole, without a line feed.
    pub heading: String,
    /// The nodes, ascending by number, each once.
    pub nodes: Vec<NodeExplanation>,
}

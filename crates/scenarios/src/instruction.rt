//! What a line of a scenario says.

use authenticators::NodeId;

/// The kind of a node.
#[derive(Clone, Copy, Debug, PartialEq, Eq)]
pub enum Kind {
    /// It runs the program and answers.
    Honest,
    /// It does as an honest one does. In the end it signs a second hash of its last number.
    Fork,
    /// It answers nothing that comes to it.
    Mute,
    /// It runs another program than it should.
    Wrong,
}

/// A node of a scenario.
#[derive(Clone, Copy, Debug, PartialEq, Eq)]
pub struct Member {
    /// The node's number.
    pub id: NodeId,
    /// What kind of node it is.
    pub kind: Kind,
}

/// What happens.
#[derive(Clone, Copy, Debug, PartialEq, Eq)]
pub enum Act {
    /// The node's timer ticks at this moment.
    Timer {
        /// The node whose timer it is.
        node: NodeId,
        /// The moment, in the program's own unit.
        moment: u64,
    },
    /// The node logs a checkpoint.
    Checkpoint {
        /// The node that logs it.
        node: NodeId,
    },
    /// The node is asked for its log.
    Audit {
        /// The node that is asked.
        node: NodeId,
    },
    /// From here on, the node signs with its next key.
    Rekey {
        /// The node whose key changes.
        node: NodeId,
    },
}

/// What a line says.
#[derive(Clone, Copy, Debug)]
pub(crate) enum Instruction {
    /// How many witnesses there are.
    Witnesses(u8),
    /// A node.
    Node(Member),
    /// Something that happens.
    Happens(Act),
}

impl Act {
    ghost use Rattle.std.specs.Prelude.{◌≡◌};
    ghost use Rattle.scenarios.specs.Scenarios.{node_of};

    /// Returns the node to which it happens.
    pub fn node(&self) -> NodeId
        ensures { result ≡ node_of self.now }
    {
        match self {
            Act::Timer { node, .. }
            | Act::Checkpoint { node }
            | Act::Audit { node }
            | Act::Rekey { node } => *node,
        }
    }
}

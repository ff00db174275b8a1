//! The choice of the nodes that are asked of.

ghost use Rattle.std.specs.Prelude.{◌≡◌};
ghost use Rattle.operating.specs.Questions.{asked, is_asked};

use answers::Standing;
use authenticators::NodeId;
use shards::Shards;
use std::collections::BTreeMap;

/// The nodes that are asked of.
#[derive(Clone, Copy)]
pub enum Scope {
    /// All nodes.
    All,
    /// The nodes of one shard, by the count of shards and the shard's number. The shard's store says of them what all evidence says. Of
    /// other nodes it may say something else, since it may lack what exposes them and what answers a challenge.
    Shard(Shards, u32),
}

impl Scope {
    /// Returns whether the node is asked of.
    pub fn asks(&self, node: NodeId) -> bool
        ensures { result ≡ is_asked self.now node }
    {
        match self {
            Scope::All => true,
            Scope::Shard(shards, number) => shards.of(node) == *number,
        }
    }

    /// Keeps what is said of the nodes that are asked of, and removes the rest.
    pub(crate) fn keep(&self, standings: &mut BTreeMap<u32, Standing>)
        ensures { standings.new.entries ≡ asked self.now standings.old.entries }
    {
        standings.retain(|node, _| self.asks(NodeId(*node)));
    }
}

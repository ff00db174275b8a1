//! How items are dealt to parts.

ghost use Rattle.std.specs.Prelude.{◌≡◌, ◌≤◌, IfSome, IsSome};
ghost use Rattle.localities.specs.Shards.{in_turn};
ghost use Rattle.shards.specs.Parts.{parts_of};

use authenticators::NodeId;
use std::marker::Model;

/// How many shards there can be at most.
pub const MOST_SHARDS: u32 = 1024;

/// How many shards there are, 1 to [`MOST_SHARDS`]. Nodes are dealt to them in turn by their numbers: node j goes to shard j modulo their
/// count.
#[derive(Clone, Copy)]
pub struct Shards {
    count: u32,
}

impl Model for Shards {
    ghost use Rattle.std.specs.Prelude.{◌≤◌, ℕ};
    ghost use Rattle.shards.specs.declared.dealing.TheConstants.{MOST_SHARDS};

    ghost Value = { ℕ };

    ghost view = { λ s. s.count };

    ghost inverse = { λ n. record { count = n } };

    ghost invariant = { λ s. (1 ≤ s.count) × (s.count ≤ MOST_SHARDS) };
}

impl Shards {
    /// Returns so many shards, or `None` if the count is not 1 to [`MOST_SHARDS`].
    pub fn new(count: u32) -> Option<Shards>
        ensures some { IfSome result (λ s. (s ≡ count) × (1 ≤ count) × (count ≤ MOST_SHARDS)) }
        ensures none { (1 ≤ count) × (count ≤ MOST_SHARDS) → IsSome result }
    {
        if count == 0 || count > MOST_SHARDS {
            return None;
        }
        Some(Shards { count })
    }

    /// Returns how many shards there are.
    pub fn count(self) -> u32
        ensures same { result ≡ self }
        ensures some { 1 ≤ result }
        ensures few { result ≤ MOST_SHARDS }
    {
        self.count
    }

    /// Returns the number of a node's shard, counted from 0.
    pub fn of(self, node: NodeId) -> u32
        ensures { result ≡ in_turn self node }
    {
        node.0 % self.count
    }
}

/// How items are dealt to parts.
#[derive(Clone, Copy)]
pub enum Dealing {
    /// By the nodes that they name, in their fields or as the sender in a RECV entry.
    ByNode(Shards),
    /// By the nodes that their fields name alone. What segments quote of nodes of other shards stands beside them as items
    /// ([`extracted`](crate::extracted)).
    Extracts(Shards),
}

impl Dealing {
    /// Returns how many parts there are.
    pub fn parts(&self) -> u32
        ensures same { result ≡ parts_of self.now }
        ensures some { 1 ≤ result }
        ensures few { result ≤ MOST_SHARDS }
    {
        match self {
            Dealing::ByNode(shards) | Dealing::Extracts(shards) => shards.count(),
        }
    }
}

//! Calls at a shared store, and their replies.

ghost use Rattle.std.specs.Prelude.{◌≡◌, ◌↔◌, IsTrue};
ghost use Rattle.shared_stores.specs.Histories.{recorded};

use crate::item_set::ItemSet;
use authenticators::NodeId;
use evidence_item::Item;
use evidence_set::Indication;
use log_chain::ByteString;

/// A call at a shared store.
#[derive(Debug, Drop)]
pub enum Call {
    /// A request to take the item.
    Take(Item),
    /// A request to merge another store, which has these items.
    Merge(ItemSet),
    /// A question for the indication of the node.
    Ask(NodeId),
    /// A request for the text of all items.
    Export,
}

impl Call {
    /// Returns whether the two are the same call with the same values. It takes no memory.
    pub fn is(&self, other: &Call) -> bool
        ensures { IsTrue result ↔ (self.now ≡ other.now) }
    {
        match (self, other) {
            (Call::Take(a), Call::Take(b)) => *a == *b,
            (Call::Merge(a), Call::Merge(b)) => a.is(b),
            (Call::Ask(a), Call::Ask(b)) => *a == *b,
            (Call::Export, Call::Export) => true,
            _ => false,
        }
    }
}

/// The reply to a call.
#[derive(Debug, Drop)]
pub enum Given {
    /// The reply to a taking: whether the item was new.
    Took(bool),
    /// The reply to a merge: how many of the other store's items were new.
    Merged(u64),
    /// The reply to a question: what the items say of the node.
    Says(Indication),
    /// The reply to an export: the text of all items.
    Bytes(ByteString),
}

impl Given {
    /// Returns whether the two are the same reply. It takes no memory.
    pub fn is(&self, other: &Given) -> bool
        ensures { IsTrue result ↔ (self.now ≡ other.now) }
    {
        match (self, other) {
            (Given::Took(a), Given::Took(b)) => *a == *b,
            (Given::Merged(a), Given::Merged(b)) => *a == *b,
            (Given::Says(a), Given::Says(b)) => *a == *b,
            (Given::Bytes(a), Given::Bytes(b)) => *a == *b,
            _ => false,
        }
    }
}

/// A call, the number of its caller, and its reply.
#[derive(Debug, Drop)]
pub struct Recorded {
    /// The number of the caller's pass.
    pub caller: usize,
    /// The call.
    pub call: Call,
    /// The reply to the call.
    pub reply: Given,
}

impl Recorded {
    /// Joins a call with its caller and its reply. It takes no memory.
    pub fn new(caller: usize, call: Call, reply: Given) -> Recorded
        ensures { result ≡ recorded caller call reply }
    {
        Recorded {
            caller,
            call,
            reply,
        }
    }

    /// Returns whether the two are the same call of the same caller with the same reply. It takes no memory.
    pub fn is(&self, other: &Recorded) -> bool
        ensures { IsTrue result ↔ (self.now ≡ other.now) }
    {
        self.caller == other.caller && self.call.is(&other.call) && self.reply.is(&other.reply)
    }
}

//! Items and messages that a node signs.

use crate::entries::{ZEROS, entries_of_log, entry, hash_in_log, receipt};
use crate::nodes::Signer;
use authenticators::{Authenticator, NodeId};
use evidence_item::Item;
use item_forms::Statement;
use log_chain::kind::{CHECKPOINT, INIT};
use log_chain::{ByteString, Entry, Hash, base_hash, chain_end};
use messages::Message;
use std::alloc::Global;
use std::test::Fail;

/// Where a segment of node 2 begins.
#[derive(Clone, Copy)]
pub enum Start {
    /// It begins with INIT, which has the number 1.
    Init,
    /// It begins with a CHECKPOINT of the total 0, which has the number 1, after a hash of 32 zero bytes.
    Checkpoint,
}

/// Returns the hash before a segment of node 2 that begins so, and its first entry.
fn beginning(alloc: Global, start: Start) -> Result<(Hash, Entry), Fail> {
    match start {
        Start::Init => Ok((base_hash(), entry(alloc, 1, INIT, &[0, 0, 0, 2])?)),
        Start::Checkpoint => Ok((ZEROS, entry(alloc, 1, CHECKPOINT, &[0; 8])?)),
    }
}

/// Returns the other one of the nodes 1 and 2.
fn other(node: NodeId) -> NodeId {
    if node == NodeId(1) {
        NodeId(2)
    } else {
        NodeId(1)
    }
}

impl Signer {
    /// Signs the statement that the entry with this number has this hash. The signature's C is the byte `c`, 32 times.
    pub fn authenticator(
        &mut self,
        alloc: Global,
        seq: u64,
        hash: Hash,
        c: u8,
    ) -> Result<Authenticator, Fail> {
        Ok(Authenticator {
            node: self.node,
            seq,
            hash,
            sig: self.sign(alloc, seq, hash, c)?,
        })
    }

    /// Signs that statement, and returns it as an item.
    pub fn statement(
        &mut self,
        alloc: Global,
        seq: u64,
        hash: Hash,
        c: u8,
    ) -> Result<Box<Item>, Fail> {
        let item = Item::auth(self.authenticator(alloc, seq, hash, c)?)?;
        Ok(Box::new(alloc, item)?)
    }

    /// Signs the statement of an entry of node 2's log.
    fn logged(&mut self, alloc: Global, seq: u64) -> Result<Statement, Fail> {
        let hash = hash_in_log(alloc, seq)?;
        Ok(Statement {
            seq,
            hash,
            sig: self.sign(alloc, seq, hash, 9)?,
        })
    }

    /// Returns the audit challenge for node 2's log up to its sixth entry, from the entry with this number on, or from the beginning.
    pub fn audit(&mut self, alloc: Global, from: Option<u64>) -> Result<Box<Item>, Fail> {
        let first = match from {
            Some(seq) => Some(self.logged(alloc, seq)?),
            None => None,
        };
        let last = self.logged(alloc, 6)?;
        let item = Item::audit(self.node, first, last)?;
        Ok(Box::new(alloc, item)?)
    }

    /// Signs a message to the other node, with this number, after a hash of 32 zero bytes. The signature's C is the byte `c`, 32 times.
    pub fn message(
        &mut self,
        alloc: Global,
        seq: u64,
        payload: &[u8],
        c: u8,
    ) -> Result<Box<Message>, Fail> {
        let payload = ByteString::from_slice(alloc, payload)?;
        let message = Message {
            from: self.node,
            to: other(self.node),
            seq,
            prev: ZEROS,
            sig: ByteString::from_vec(Vec::new(alloc)),
            payload,
        };
        let mut message = Box::new(alloc, message)?;
        let hash = message.signed_hash();
        message.sig = self.sign(alloc, seq, hash, c)?;
        Ok(message)
    }

    /// Signs this node's acknowledgement of the message. The RECV entry has the number 11, after a hash of 32 zero bytes.
    pub fn acknowledged(
        &mut self,
        alloc: Global,
        message: Box<Message>,
    ) -> Result<Box<Item>, Fail> {
        let hash = message.received_hash(11, ZEROS);
        let sig = self.sign(alloc, 11, hash, 9)?;
        let item = Item::ack(Box::into_inner(message), 11, ZEROS, sig)?;
        Ok(Box::new(alloc, item)?)
    }

    /// Signs the segment that begins so, and goes on with these entries.
    pub fn segment(
        &mut self,
        alloc: Global,
        start: Start,
        more: Vec<Entry>,
    ) -> Result<Box<Item>, Fail> {
        let (prev, first) = beginning(alloc, start)?;
        let mut entries = Vec::new(alloc);
        entries.push(first)?;
        for entry in more {
            entries.push(entry)?;
        }
        self.part(alloc, prev, entries)
    }

    /// Signs the segment of these entries, after this hash.
    pub fn part(
        &mut self,
        alloc: Global,
        prev: Hash,
        entries: Vec<Entry>,
    ) -> Result<Box<Item>, Fail> {
        let seq = entries.last().map_or(0, |entry| entry.seq);
        let sig = self.sign(alloc, seq, chain_end(prev, &entries), 9)?;
        let item = Item::segment(self.node, prev, entries, sig)?;
        Ok(Box::new(alloc, item)?)
    }

    /// Signs the segment of node 2's log from the entry with this number on.
    pub fn log_from(&mut self, alloc: Global, seq: u64) -> Result<Box<Item>, Fail> {
        let prev = hash_in_log(alloc, seq.saturating_sub(1))?;
        let entries = entries_of_log(alloc, seq, 6)?;
        self.part(alloc, prev, entries)
    }

    /// Signs the segment that begins so, and receives the message in its entry 2.
    pub fn receiving(
        &mut self,
        alloc: Global,
        start: Start,
        message: &Message,
    ) -> Result<Box<Item>, Fail> {
        let mut entries = Vec::new(alloc);
        entries.push(receipt(alloc, 2, message)?)?;
        self.segment(alloc, start, entries)
    }
}

//! Seven valid items: of each form one, and more segments.

use authenticators::{Directory, NodeId};
use evidence_item::{Item, Statement};
use evidence_samples::{Signer, Start, ZEROS, entry, make_nodes, receipt};
use log_chain::kind::{INIT, TIMER};
use log_chain::{Entry, Hash, base_hash, chain_end};
use messages::Message;
use std::alloc::Global;
use std::test::Fail;

/// The directory of the nodes 1 and 2, node 2, and node 1's message of `hello` to it, which has the number 7.
#[derive(Drop)]
pub(crate) struct World {
    pub(crate) directory: Box<Directory>,
    pub(crate) message: Box<Message>,
    two: Signer,
}

pub(crate) fn make_world(alloc: Global) -> Result<World, Fail> {
    let mut nodes = make_nodes(alloc)?;
    let message = nodes.one.message(alloc, 7, b"hello", 9)?;
    Ok(World {
        directory: nodes.directory,
        message,
        two: nodes.two,
    })
}

/// Which item.
#[derive(Clone, Copy)]
pub(crate) enum Sample {
    /// Node 2's statement of the number 5.
    Auth,
    /// Node 2's log, of the numbers 1 to 3: INIT, the receipt of node 1's message, and TIMER.
    Long,
    /// Its first two entries.
    Short,
    /// Node 2's entries of the numbers 1, 3 and 3.
    Level,
    /// A demand for node 2's log up to the entry 3.
    Audit,
    /// Node 1's message to node 2.
    Send,
    /// The same with node 2's acknowledgement.
    Ack,
}

pub(crate) const SAMPLES: [Sample; 7] = [
    Sample::Auth,
    Sample::Long,
    Sample::Short,
    Sample::Level,
    Sample::Audit,
    Sample::Send,
    Sample::Ack,
];

/// Node 2's entries of the numbers 3 and 3.
fn level_entries(alloc: Global) -> Result<Vec<Entry>, Fail> {
    let mut entries = Vec::new(alloc);
    entries.push(entry(alloc, 3, TIMER, &[0; 8])?)?;
    entries.push(entry(alloc, 3, TIMER, &[1; 8])?)?;
    Ok(entries)
}

/// So many entries of node 2's log.
pub(crate) fn log_of(alloc: Global, message: &Message, count: usize) -> Result<Vec<Entry>, Fail> {
    let mut entries = Vec::new(alloc);
    entries.push(entry(alloc, 1, INIT, &[0, 0, 0, 2])?)?;
    entries.push(receipt(alloc, 2, message)?)?;
    entries.push(entry(alloc, 3, TIMER, &[0, 0, 0, 0, 0, 0, 0, 10])?)?;
    entries.truncate(count);
    Ok(entries)
}

/// The hash of the last of so many entries of node 2's log.
pub(crate) fn hash_in_log(alloc: Global, message: &Message, count: usize) -> Result<Hash, Fail> {
    let entries = log_of(alloc, message, count)?;
    Ok(chain_end(base_hash(), &entries))
}

impl World {
    /// So many entries of node 2's log, in a segment.
    fn part(&mut self, alloc: Global, count: usize) -> Result<Box<Item>, Fail> {
        let entries = log_of(alloc, &self.message, count)?;
        self.two.part(alloc, base_hash(), entries)
    }

    fn level(&mut self, alloc: Global) -> Result<Box<Item>, Fail> {
        let entries = level_entries(alloc)?;
        self.two.segment(alloc, Start::Init, entries)
    }

    fn audit(&mut self, alloc: Global) -> Result<Box<Item>, Fail> {
        let hash = hash_in_log(alloc, &self.message, 3)?;
        let last = self.two.authenticator(alloc, 3, hash, 9)?;
        let last = Statement {
            seq: last.seq,
            hash: last.hash,
            sig: last.sig,
        };
        let item = Item::audit(NodeId(2), None, last)?;
        Ok(Box::new(alloc, item)?)
    }

    fn send(&mut self, alloc: Global) -> Result<Box<Item>, Fail> {
        let item = Item::send(self.message.try_clone(alloc)?)?;
        Ok(Box::new(alloc, item)?)
    }

    fn ack(&mut self, alloc: Global) -> Result<Box<Item>, Fail> {
        let message = Box::new(alloc, self.message.try_clone(alloc)?)?;
        self.two.acknowledged(alloc, message)
    }

    /// The item.
    pub(crate) fn item(&mut self, alloc: Global, sample: Sample) -> Result<Box<Item>, Fail> {
        match sample {
            Sample::Auth => self.two.statement(alloc, 5, ZEROS, 9),
            Sample::Long => self.part(alloc, 3),
            Sample::Short => self.part(alloc, 2),
            Sample::Level => self.level(alloc),
            Sample::Audit => self.audit(alloc),
            Sample::Send => self.send(alloc),
            Sample::Ack => self.ack(alloc),
        }
    }
}

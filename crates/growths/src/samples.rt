//! Two nodes, and what they sign. They sign some of it as nodes do, and some of it not.
//!
//! The program has samples of its own, since the calls of `evidence_samples` fail as tests do, which `anyhow` turns into no error. Also, the
//! logs here are those of nodes that ran.

use anyhow::{Result, bail};
use authenticators::{Authenticator, Directory, NodeId, statement_text};
use commitment::{Message, Node};
use evidence_item::{Form, Item, Segment, check_item};
use evidence_store::Evidence;
use lms_sign::{LmsType, OtsType, SecretKey};
use log_chain::kind::RECV;
use log_chain::{ByteString, Entry, Hash, chain_end};
use ref_programs::Tally;
use std::alloc::Global;

/// The entropy of all calls that sign. A real node draws 32 fresh random bytes for each such call. The scenes do not, so that they write the
/// same each time.
pub const ENTROPY: [u8; 32] = [0; 32];

/// Makes a key (H5, W1) that is equal to the node's. Its identifier and its seed end in the node's number.
pub fn key_of(alloc: Global, node: u8) -> Result<Box<SecretKey>> {
    let mut id = [0; 16];
    id[15] = node;
    let mut seed = [0; 32];
    seed[31] = node;
    let key = SecretKey::make(alloc, LmsType::H5, OtsType::W1, id, seed)?;
    Ok(Box::new(alloc, key)?)
}

/// Makes the directory of the nodes 1 and 2.
pub fn directory_of(alloc: Global) -> Result<Box<Directory>> {
    let mut directory = Box::new(alloc, Directory::new(alloc))?;
    directory.add(NodeId(1), key_of(alloc, 1)?.public_key())?;
    directory.add(NodeId(2), key_of(alloc, 2)?.public_key())?;
    Ok(directory)
}

/// Begins the node. The first entry of its log has the number 1.
pub fn begin(alloc: Global, directory: &Directory, node: u8) -> Result<Box<Node<Tally>>> {
    let key = Box::into_inner(key_of(alloc, node)?);
    let id = NodeId(u32::from(node));
    match Node::new(alloc, Tally, directory.try_clone()?, id, key, 1) {
        Ok(node) => Ok(Box::new(alloc, node)?),
        Err(_) => bail!("the node does not begin"),
    }
}

/// Ticks node 1's timer, and returns the message that node 1 sends. It tells node 2 to add 5.
pub fn send(alloc: Global, one: &mut Node<Tally>) -> Result<Box<Message>> {
    match one.timer(5, ENTROPY)?.pop() {
        Some(message) => Ok(Box::new(alloc, message)?),
        None => bail!("no message was sent"),
    }
}

/// Returns a message of node 1 to node 2.
pub fn message(alloc: Global, directory: &Directory) -> Result<Box<Message>> {
    let mut one = begin(alloc, directory, 1)?;
    send(alloc, &mut one)
}

/// Returns the segment of the node's log up to what it signed last.
fn log_of(alloc: Global, node: &Node<Tally>) -> Result<Box<Item>> {
    let Some(last) = node.signed().last() else {
        bail!("the node signed nothing");
    };
    let (prev, entries) = node.history().segment(1, last.seq)?;
    let sig = last.sig.try_clone(alloc)?;
    let item = Item::segment(node.id(), prev, entries.into_vec(), sig)?;
    Ok(Box::new(alloc, item)?)
}

/// Returns the log of node 1, which sent a message: INIT, TIMER and SEND.
pub fn sender(alloc: Global, directory: &Directory) -> Result<Box<Item>> {
    let mut one = begin(alloc, directory, 1)?;
    send(alloc, &mut one)?;
    log_of(alloc, &one)
}

/// Returns the log of node 2, which received that message and replied: INIT, RECV, which quotes the message, and SEND.
pub fn receiver(alloc: Global, directory: &Directory) -> Result<Box<Item>> {
    let message = message(alloc, directory)?;
    let mut two = begin(alloc, directory, 2)?;
    two.receive(&message, ENTROPY)?;
    log_of(alloc, &two)
}

/// Returns node 2's signature of the statement that its entry with this number has this hash. Each signature is by the key's first leaf.
fn sign(alloc: Global, seq: u64, hash: Hash) -> Result<ByteString> {
    let mut key = key_of(alloc, 2)?;
    let sig = key.sign(alloc, &statement_text(seq, hash), ENTROPY)?;
    Ok(ByteString::from_vec(sig))
}

/// Returns a statement of node 2, that its third entry has a hash of this byte, 32 times.
pub fn statement(alloc: Global, byte: u8) -> Result<Box<Item>> {
    let hash = Hash([byte; 32]);
    let item = Item::auth(Authenticator {
        node: NodeId(2),
        seq: 3,
        hash,
        sig: sign(alloc, 3, hash)?,
    })?;
    Ok(Box::new(alloc, item)?)
}

/// Returns the entries of the log, and after them the second one once more, with the number 4.
fn repeated(alloc: Global, log: &Segment) -> Result<Vec<Entry>> {
    let mut entries = log.entries.try_clone(alloc)?.into_vec();
    let Some(second) = log.entries.as_slice().get(1) else {
        bail!("the log has no second entry");
    };
    let content = second.content.try_clone(alloc)?;
    entries.push(Entry {
        seq: 4,
        kind: RECV,
        content,
    })?;
    Ok(entries)
}

/// Returns a log of node 2 that deviates: after its reply, the node receives the message again.
pub fn twice(alloc: Global, directory: &Directory) -> Result<Box<Item>> {
    let log = receiver(alloc, directory)?;
    let Form::Segment(segment) = log.form() else {
        bail!("the log is no segment");
    };
    let entries = repeated(alloc, segment)?;
    let sig = sign(alloc, 4, chain_end(segment.prev, &entries))?;
    let item = Item::segment(NodeId(2), segment.prev, entries, sig)?;
    Ok(Box::new(alloc, item)?)
}

/// Creates a store without items, under the directory.
pub fn new_store<S: Evidence<Tally>>(alloc: Global, directory: &Directory) -> Result<Box<S>> {
    match S::new(alloc, directory.try_clone()?) {
        Ok(store) => Ok(Box::new(alloc, store)?),
        Err(_) => bail!("memory ran out"),
    }
}

/// Makes the store take the item, which must be valid.
pub fn take<S: Evidence<Tally>>(alloc: Global, store: &mut S, item: Box<Item>) -> Result<()> {
    let checked = check_item(alloc, &Tally, store.directory(), Box::into_inner(item))?;
    match store.take(checked) {
        Ok(_) => Ok(()),
        Err(_) => bail!("memory ran out"),
    }
}

/// Returns a store with node 1's log, and with a statement of node 2 whose hash is not that of its log.
pub fn first_store<S: Evidence<Tally>>(alloc: Global, directory: &Directory) -> Result<Box<S>> {
    let mut store: Box<S> = new_store(alloc, directory)?;
    take::<S>(alloc, &mut store, sender(alloc, directory)?)?;
    take::<S>(alloc, &mut store, statement(alloc, 1)?)?;
    Ok(store)
}

/// Returns a store with that statement, and with node 2's log.
pub fn second_store<S: Evidence<Tally>>(alloc: Global, directory: &Directory) -> Result<Box<S>> {
    let mut store: Box<S> = new_store(alloc, directory)?;
    take::<S>(alloc, &mut store, statement(alloc, 1)?)?;
    take::<S>(alloc, &mut store, receiver(alloc, directory)?)?;
    Ok(store)
}

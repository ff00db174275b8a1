//! What a store says of a node that sent a message, and of its receiver, whose segment quotes it as it was sent and otherwise.

ghost use Rattle.std.specs.Prelude.{◌≡◌};

use crate::honesty::calls::{make_key, new_store, node_of, take};
use accuracy::exposes;
use authenticators::{Directory, NodeId, statement_text};
use commitment::{Message, Node};
use evidence_item::Item;
use evidence_samples::receipt;
use evidence_store::{Evidence, IndexedStore, Indication, PlainStore};
use lms_sign::SecretKey;
use log_chain::{ByteString, Entry, Hash, base_hash, chain_end, kind};
use ref_programs::Tally;
use std::alloc::Global;
use std::test::Fail;

/// Node 1, a message of it to node 2, and the key of node 2.
#[derive(Drop)]
struct Nodes {
    one: Box<Node<Tally>>,
    message: Box<Message>,
    two: Box<SecretKey>,
}

/// What node 1 sends to node 2 at its timer.
fn sent(alloc: Global, node: &mut Node<Tally>) -> Result<Box<Message>, Fail> {
    let mut messages = node.timer(5, [0; 32])?;
    match messages.pop() {
        Some(message) => Ok(Box::new(alloc, message)?),
        None => Err("no message")?,
    }
}

fn make_nodes(alloc: Global) -> Result<Nodes, Fail> {
    let key = make_key(alloc, 1)?;
    let two = make_key(alloc, 2)?;
    let mut directory = Box::new(alloc, Directory::new(alloc))?;
    directory.add(NodeId(1), key.public_key())?;
    directory.add(NodeId(2), two.public_key())?;
    let mut one = node_of(alloc, directory, key)?;
    let message = sent(alloc, &mut one)?;
    Ok(Nodes { one, message, two })
}

/// How node 2's segment begins.
#[derive(Clone, Copy)]
enum Start {
    /// With INIT.
    Init,
    /// With a CHECKPOINT of the total 0, after zeros.
    Checkpoint,
}

impl Start {
    /// The hash before the first entry.
    fn prev(self) -> Hash {
        match self {
            Start::Init => base_hash(),
            Start::Checkpoint => Hash([0; 32]),
        }
    }

    /// The first entry.
    fn entry(self, alloc: Global) -> Result<Entry, Fail> {
        let (kind, content) = match self {
            Start::Init => (kind::INIT, [0, 0, 0, 2].as_slice()),
            Start::Checkpoint => (kind::CHECKPOINT, [0; 8].as_slice()),
        };
        let content = ByteString::from_slice(alloc, content)?;
        Ok(Entry {
            seq: 1,
            kind,
            content,
        })
    }
}

/// Changes the byte at the place, if there is one.
fn change(text: &mut [u8], place: usize) {
    if let Some(byte) = text.get_mut(place) {
        *byte ^= 1;
    }
}

/// The second entry: a RECV that quotes the message with the byte at the place changed, if one is.
fn receipt_of(alloc: Global, message: &Message, place: Option<usize>) -> Result<Entry, Fail> {
    let Entry { seq, kind, content } = receipt(alloc, 2, message)?;
    let mut quote = content.into_vec();
    if let Some(place) = place {
        change(&mut quote, place);
    }
    Ok(Entry {
        seq,
        kind,
        content: ByteString::from_vec(quote),
    })
}

fn entries_of(
    alloc: Global,
    message: &Message,
    start: Start,
    place: Option<usize>,
) -> Result<Vec<Entry>, Fail> {
    let mut entries = Vec::new(alloc);
    entries.push(start.entry(alloc)?)?;
    entries.push(receipt_of(alloc, message, place)?)?;
    Ok(entries)
}

/// Node 2's segment of these two entries.
fn segment(
    alloc: Global,
    nodes: &mut Nodes,
    start: Start,
    place: Option<usize>,
) -> Result<Box<Item>, Fail> {
    let prev = start.prev();
    let entries = entries_of(alloc, &nodes.message, start, place)?;
    let hash = chain_end(prev, &entries);
    let sig = nodes.two.sign(alloc, &statement_text(2, hash), [9; 32])?;
    let item = Item::segment(NodeId(2), prev, entries, ByteString::from_vec(sig))?;
    Ok(Box::new(alloc, item)?)
}

/// What a store says of the nodes 1 and 2, and whether it exposes node 1.
#[derive(Clone, Copy, Debug, PartialEq, Eq)]
struct Said {
    one: Indication,
    two: Indication,
    exposes: bool,
}

/// The same of a store under the node's directory.
fn said_by<S: Evidence<Tally>>(store: &S, node: &Node<Tally>) -> Result<Said, Fail>
    requires { (S.contents store.now).directory ≡ node.now.directory }
{
    let one = store.indication(NodeId(1))?;
    let two = store.indication(NodeId(2))?;
    let exposes = exposes(store, node);
    Ok(Said { one, two, exposes })
}

/// The same of a store that has taken that segment alone.
fn said_of<S: Evidence<Tally>>(
    alloc: Global,
    nodes: &mut Nodes,
    start: Start,
    place: Option<usize>,
) -> Result<Said, Fail> {
    let item = segment(alloc, nodes, start, place)?;
    let mut store: Box<S> = new_store(alloc, &nodes.one)?;
    take::<S>(alloc, &mut store, item)?;
    said_by::<S>(&store, &nodes.one)
}

/// The same where the message is quoted as it was sent, with another number, with another hash before it and with the last byte of
/// its signature changed; and again with another number, behind a CHECKPOINT.
fn said_of_quotes<S: Evidence<Tally>>(alloc: Global) -> Result<[Said; 5], Fail> {
    let mut nodes = make_nodes(alloc)?;
    // The sender in 4 bytes, the number in 8, the hash in 32, the signature's length in 4, and the signature of 2,348.
    Ok([
        said_of::<S>(alloc, &mut nodes, Start::Init, None)?,
        said_of::<S>(alloc, &mut nodes, Start::Init, Some(11))?,
        said_of::<S>(alloc, &mut nodes, Start::Init, Some(43))?,
        said_of::<S>(alloc, &mut nodes, Start::Init, Some(2395))?,
        said_of::<S>(alloc, &mut nodes, Start::Checkpoint, Some(11))?,
    ])
}

#[test]
fn a_receiver_that_quotes_otherwise_is_exposed(rt: HostRuntime) -> Result<(), Fail> {
    let (trusted, exposed) = (Indication::Trusted, Indication::Exposed);
    let honest = Said {
        one: trusted,
        two: trusted,
        exposes: false,
    };
    let changed = Said {
        two: exposed,
        ..honest
    };
    let expected = [honest, changed, changed, changed, changed];
    assert_eq!(rt; said_of_quotes::<PlainStore<Tally>>(rt.alloc())?, expected);
    assert_eq!(rt;
        said_of_quotes::<IndexedStore<Tally>>(rt.alloc())?,
        expected
    );
    Ok(())
}

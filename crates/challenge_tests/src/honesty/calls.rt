//! A store that holds nothing against a node, and one that holds two statements of its number, by which a copy of its key signed.

ghost use Rattle.std.specs.Prelude.{◌≡◌, IfOk, OnOk};

use accuracy::exposes;
use authenticators::{Authenticator, Directory, NodeId, statement_text};
use commitment::Node;
use evidence_item::{Item, check_item};
use evidence_store::{Evidence, IndexedStore, PlainStore};
use lms_sign::{LmsType, OtsType, SecretKey};
use log_chain::{ByteString, Hash};
use ref_programs::Tally;
use std::alloc::Global;
use std::test::Fail;

/// The key of the node.
pub(crate) fn make_key(alloc: Global, node: u8) -> Result<Box<SecretKey>, Fail> {
    let key = SecretKey::make(alloc, LmsType::H5, OtsType::W4, [node; 16], [2; 32])?;
    Ok(Box::new(alloc, key)?)
}

/// Node 1 under Tally.
pub(crate) fn node_of(
    alloc: Global,
    directory: Box<Directory>,
    key: Box<SecretKey>,
) -> Result<Box<Node<Tally>>, Fail> {
    let (directory, key) = (Box::into_inner(directory), Box::into_inner(key));
    match Node::new(alloc, Tally, directory, NodeId(1), key, 1) {
        Ok(node) => Ok(Box::new(alloc, node)?),
        Err(refused) => Err(refused.fault)?,
    }
}

fn new_node(alloc: Global) -> Result<Box<Node<Tally>>, Fail> {
    let key = make_key(alloc, 1)?;
    let mut directory = Box::new(alloc, Directory::new(alloc))?;
    directory.add(NodeId(1), key.public_key())?;
    node_of(alloc, directory, key)
}

/// A store without items, under the node's directory.
pub(crate) fn new_store<S: Evidence<Tally>>(
    alloc: Global,
    node: &Node<Tally>,
) -> Result<Box<S>, Fail>
    ensures { IfOk result (λ s. (S.contents s.value).directory ≡ node.now.directory) }
{
    let directory = node.directory().try_clone()?;
    let store = S::new(alloc, directory)?;
    Ok(Box::new(alloc, store)?)
}

/// The statement that entry 1 of node 1 has this hash, which the key signs.
fn statement(alloc: Global, key: &mut SecretKey, hash: Hash) -> Result<Box<Item>, Fail> {
    let sig = key.sign(alloc, &statement_text(1, hash), [9; 32])?;
    let item = Item::auth(Authenticator {
        node: NodeId(1),
        seq: 1,
        hash,
        sig: ByteString::from_vec(sig),
    })?;
    Ok(Box::new(alloc, item)?)
}

/// Takes the item, if it is valid.
pub(crate) fn take<S: Evidence<Tally>>(
    alloc: Global,
    store: &mut S,
    item: Box<Item>,
) -> Result<(), Fail>
    ensures { OnOk result ((S.contents store.new).directory ≡ (S.contents store.old).directory) }
{
    let checked = check_item(alloc, &Tally, store.directory(), Box::into_inner(item))?;
    store.take(checked)?;
    Ok(())
}

/// Takes two statements of entry 1 of node 1, with two hashes, by a copy of the node's key.
fn take_forgeries<S: Evidence<Tally>>(alloc: Global, store: &mut S) -> Result<(), Fail>
    ensures { OnOk result ((S.contents store.new).directory ≡ (S.contents store.old).directory) }
{
    let mut stolen = make_key(alloc, 1)?;
    let first = statement(alloc, &mut stolen, Hash([1; 32]))?;
    let second = statement(alloc, &mut stolen, Hash([2; 32]))?;
    take::<S>(alloc, store, first)?;
    take::<S>(alloc, store, second)?;
    Ok(())
}

/// Whether a new node is exposed by a store without items, and by one with two statements of it that it did not sign.
fn exposures<S: Evidence<Tally>>(alloc: Global) -> Result<[bool; 2], Fail> {
    let node = new_node(alloc)?;
    let mut store: Box<S> = new_store(alloc, &node)?;
    let without = exposes(&*store, &node);
    take_forgeries::<S>(alloc, &mut store)?;
    Ok([without, exposes(&*store, &node)])
}

#[test]
fn two_statements_by_a_stolen_key(rt: HostRuntime) -> Result<(), Fail> {
    assert_eq!(rt; exposures::<PlainStore<Tally>>(rt.alloc())?, [false, true]);
    assert_eq!(rt;
        exposures::<IndexedStore<Tally>>(rt.alloc())?,
        [false, true]
    );
    Ok(())
}

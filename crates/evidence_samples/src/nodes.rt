//! The nodes 1 and 2, their keys and their directory.

use authenticators::{Directory, NodeId, statement_text};
use lms_sign::{LmsType, OtsType, SecretKey};
use log_chain::{ByteString, Hash};
use std::alloc::Global;
use std::test::Fail;

/// A node's number, and a key that is equal to the node's. It signs what a test asks for.
#[derive(Drop)]
pub struct Signer {
    pub(crate) node: NodeId,
    key: Box<SecretKey>,
}

/// The nodes that sign, under their directory.
#[derive(Drop)]
pub struct Nodes {
    /// The directory, which lists both nodes, each with one key.
    pub directory: Box<Directory>,
    /// Node 1.
    pub one: Signer,
    /// Node 2.
    pub two: Signer,
}

/// Makes the key (H5, W1) whose identifier and seed have the key's number in each byte, and end in the node's number in 4 bytes.
fn make_key(alloc: Global, node: u8, number: u8) -> Result<Box<SecretKey>, Fail> {
    let mut id = [number; 16];
    id[12..].copy_from_slice(&[0, 0, 0, node]);
    let mut seed = [number; 32];
    seed[28..].copy_from_slice(&[0, 0, 0, node]);
    let key = SecretKey::make(alloc, LmsType::H5, OtsType::W1, id, seed)?;
    Ok(Box::new(alloc, key)?)
}

/// Makes the node's key 0, which the directory lists.
pub fn key_of(alloc: Global, node: u8) -> Result<Box<SecretKey>, Fail> {
    make_key(alloc, node, 0)
}

/// Makes the node's key 1, which the directory does not list yet.
pub fn next_key_of(alloc: Global, node: u8) -> Result<Box<SecretKey>, Fail> {
    make_key(alloc, node, 1)
}

fn make_signer(alloc: Global, node: u8) -> Result<Signer, Fail> {
    Ok(Signer {
        node: NodeId(u32::from(node)),
        key: key_of(alloc, node)?,
    })
}

/// Makes both nodes, which have signed nothing yet, and their directory.
pub fn make_nodes(alloc: Global) -> Result<Nodes, Fail> {
    let one = make_signer(alloc, 1)?;
    let two = make_signer(alloc, 2)?;
    let mut directory = Box::new(alloc, Directory::new(alloc))?;
    directory.add(one.node, one.key.public_key())?;
    directory.add(two.node, two.key.public_key())?;
    Ok(Nodes {
        directory,
        one,
        two,
    })
}

impl Signer {
    /// Signs the statement that the entry with this number has this hash, by the key's next leaf. The signature's C is the byte `c`, 32 times.
    pub(crate) fn sign(
        &mut self,
        alloc: Global,
        seq: u64,
        hash: Hash,
        c: u8,
    ) -> Result<ByteString, Fail> {
        let sig = self.key.sign(alloc, &statement_text(seq, hash), [c; 32])?;
        Ok(ByteString::from_vec(sig))
    }
}

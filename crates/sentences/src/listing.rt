//! What a directory lists, in lines that can be read out.

use crate::basis::{groups_of, put_digest};
use crate::words::Count;
use authenticators::{Directory, NodeId, PublicKey};
use log_chain::Hash;
use sha2::{Digest, Sha256};
use std::alloc::{AllocError, Global};

/// A node that a directory lists.
#[derive(Debug, Drop)]
pub struct ListedNode {
    /// The node.
    pub node: NodeId,
    /// The SHA-256 of the encoding of each of its keys. The place in the list is the key's number, from 0.
    pub keys: Vec<Hash>,
}

/// What a directory lists.
#[derive(Debug, Drop)]
pub struct Listing {
    /// The SHA-256 of the directory's encoding.
    pub directory: Hash,
    /// Its nodes, ascending by number.
    pub nodes: Vec<ListedNode>,
}

/// Returns the SHA-256 of each key.
fn digests_of(alloc: Global, keys: &[PublicKey]) -> Result<Vec<Hash>, AllocError> {
    let mut digests = Vec::new(alloc);
    for key in keys {
        digests.push(Hash(Sha256::digest(&key.to_bytes())))?;
    }
    Ok(digests)
}

impl Listing {
    /// Returns what a directory lists. `text` is the directory's encoding.
    pub fn of(alloc: Global, directory: &Directory, text: &[u8]) -> Result<Listing, AllocError> {
        let mut numbers = Vec::from_slice(alloc, directory.nodes())?;
        numbers.sort()?;
        let mut nodes = Vec::new(alloc);
        for node in numbers.as_slice() {
            let keys = digests_of(alloc, directory.keys_of(*node).unwrap_or(&[]))?;
            nodes.push(ListedNode { node: *node, keys })?;
        }
        Ok(Listing {
            directory: Hash(Sha256::digest(text)),
            nodes,
        })
    }

    /// Returns how many nodes and keys there are, such as `2 nodes, 3 keys`.
    pub fn summary(&self, alloc: Global) -> Result<String, AllocError> {
        let nodes = Count(self.nodes.len() as u64, "node", "nodes");
        let mut keys: u64 = 0;
        for node in &self.nodes {
            keys = keys.saturating_add(node.keys.len() as u64);
        }
        let keys = Count(keys, "key", "keys");
        format!(in alloc; "{nodes}, {keys}")
    }
}

/// Writes a node, and below it its keys by number.
fn put_node(alloc: Global, text: &mut Vec<u8>, listed: &ListedNode) -> Result<(), AllocError> {
    let node = listed.node;
    let line = format!(in alloc; "node {node}\n")?;
    text.extend_from_slice(line.as_bytes())?;
    for (number, key) in listed.keys.iter().enumerate() {
        let name = format!(in alloc; "  key {number}:")?;
        text.extend_from_slice(name.as_bytes())?;
        text.extend_from_slice(&groups_of(alloc, key)?)?;
        text.extend_from_slice(b"\n")?;
    }
    Ok(())
}

/// Returns a line with the directory's SHA-256, and below it each node with the SHA-256 of each of its keys.
pub fn listing_lines(alloc: Global, listing: &Listing) -> Result<Vec<u8>, AllocError> {
    let mut text = Vec::new(alloc);
    put_digest(alloc, &mut text, "directory", &listing.directory)?;
    for node in &listing.nodes {
        put_node(alloc, &mut text, node)?;
    }
    Ok(text)
}

//! The keys of a directory, by their fingerprints.

ghost use Rattle.std.specs.Prelude.{◌≡◌, ◌++◌, IfOk, OnOk, Some, map};
ghost use Rattle.lms_sign.specs.declared.key.PublicKey.{PublicKey as KeyValue};
ghost use Rattle.answers.specs.Showing.{print_of, prints_at, prints_of};

use authenticators::{Directory, Hash, NodeId, PublicKey};
use sha2::{Digest, Sha256};
use std::alloc::{AllocError, Global};

/// A key of a node, by the SHA-256 value of its text.
#[derive(Clone, Copy, Debug)]
pub struct KeyPrint {
    /// The node.
    pub node: NodeId,
    /// The SHA-256 value of the key's text.
    pub sha256: Hash,
}

/// Returns the fingerprint of a node's key.
fn print_of(node: NodeId, key: &PublicKey) -> KeyPrint
    ensures { result ≡ print_of node key.now }
{
    KeyPrint {
        node,
        sha256: Hash(Sha256::digest(key.to_bytes())),
    }
}

/// Adds the fingerprints of keys of a node.
fn add_prints(
    prints: &mut Vec<KeyPrint>,
    node: NodeId,
    keys: &[PublicKey],
) -> Result<(), AllocError>
    ensures { OnOk result (prints.new.items ≡ prints.old.items ++ map (print_of node) keys.now) }
{
    for key in keys {
        prints.push(print_of(node, key))?;
    }
    Ok(())
}

/// Adds the fingerprints of a node's keys.
fn add_node(
    prints: &mut Vec<KeyPrint>,
    directory: &Directory,
    node: NodeId,
) -> Result<(), AllocError>
    ensures { OnOk result (prints.new.items ≡ prints.old.items ++ prints_at directory.now node) }
{
    match directory.keys_of(node) {
        None => Ok(()),
        Some(keys) => add_prints(prints, node, keys),
    }
}

/// Returns the fingerprints of the keys of all nodes, in the directory's order.
pub(crate) fn prints_of(alloc: Global, directory: &Directory) -> Result<Vec<KeyPrint>, AllocError>
    ensures { IfOk result (λ prints. prints.items ≡ prints_of directory.now) }
{
    let mut prints = Vec::new(alloc);
    for node in directory.nodes() {
        add_node(&mut prints, directory, *node)?;
    }
    Ok(prints)
}

//! What checking tells of proofs of each form, signed and not.

use crate::convictions::calls::{
    ONES, ZEROS, auth_segment, no_bytes, nonconforming, proof_of, two_auths,
};
use authenticators::{Authenticator, Directory, NodeId, statement_text};
use lms_sign::{LmsType, OtsType, SecretKey};
use log_chain::{ByteString, Entry, Hash, base_hash, chain_end, kind};
use proofs::{Item, Proof, check_proof};
use ref_programs::Tally;
use std::alloc::Global;
use std::test::Fail;

/// Node 1 and its key, under a directory that lists it.
#[derive(Drop)]
struct Node {
    directory: Directory,
    key: SecretKey,
}

fn make_node(alloc: Global) -> Result<Box<Node>, Fail> {
    let key = SecretKey::make(alloc, LmsType::H5, OtsType::W4, [1; 16], [1; 32])?;
    let mut directory = Directory::new(alloc);
    directory.add(NodeId(1), key.public_key())?;
    Ok(Box::new(alloc, Node { directory, key })?)
}

/// What checking tells: the node that is convicted, or the number of the refusal.
#[derive(Clone, Copy, Debug, PartialEq, Eq)]
pub(crate) enum Answer {
    Convicted(u32),
    Refused(u8),
}

pub(crate) fn answer_to(alloc: Global, directory: &Directory, proof: &Proof) -> Answer {
    match check_proof(alloc, &Tally, directory, proof) {
        Ok(node) => Answer::Convicted(node.0),
        Err(fault) => Answer::Refused(fault.number()),
    }
}

/// Node 1's signature of number and hash.
fn signed(alloc: Global, node: &mut Node, seq: u64, hash: Hash) -> Result<ByteString, Fail> {
    let sig = node.key.sign(alloc, &statement_text(seq, hash), [9; 32])?;
    Ok(ByteString::from_vec(sig))
}

fn signed_auth(alloc: Global, node: &mut Node, seq: u64, hash: Hash) -> Result<Box<Item>, Fail> {
    let sig = signed(alloc, node, seq, hash)?;
    let item = Item::auth(Authenticator {
        node: NodeId(1),
        seq,
        hash,
        sig,
    })?;
    Ok(Box::new(alloc, item)?)
}

/// What is told of the form's proof that is not signed.
fn answer_to_unsigned(alloc: Global, node: &Node, form: u8) -> Result<Answer, Fail> {
    let proof = proof_of(alloc, form)?;
    Ok(answer_to(alloc, &node.directory, &proof))
}

/// What is told of node 1's statements of number 5 and zeros, and of another number and hash.
fn answer_to_two(alloc: Global, node: &mut Node, seq: u64, hash: Hash) -> Result<Answer, Fail> {
    let first = signed_auth(alloc, node, 5, ZEROS)?;
    let second = signed_auth(alloc, node, seq, hash)?;
    let proof = two_auths(first, second)?;
    Ok(answer_to(alloc, &node.directory, &proof))
}

/// What is told of two hashes of one number, of one hash, of two numbers, and of two hashes that are not signed.
fn answers_to_pairs(alloc: Global, node: &mut Node) -> Result<[Answer; 4], Fail> {
    Ok([
        answer_to_two(alloc, node, 5, ONES)?,
        answer_to_two(alloc, node, 5, ZEROS)?,
        answer_to_two(alloc, node, 6, ONES)?,
        answer_to_unsigned(alloc, node, 1)?,
    ])
}

#[test]
fn two_hashes_convict(rt: HostRuntime) -> Result<(), Fail> {
    let mut node = make_node(rt.alloc())?;
    let expected = [
        Answer::Convicted(1),
        Answer::Refused(50),
        Answer::Refused(50),
        Answer::Refused(49),
    ];
    assert_eq!(rt; answers_to_pairs(rt.alloc(), &mut node)?, expected);
    Ok(())
}

/// The segment of node 1's log that is INIT with this content alone.
fn log_segment(alloc: Global, node: &mut Node, content: &[u8]) -> Result<Box<Item>, Fail> {
    let mut entries = Vec::new(alloc);
    entries.push(Entry {
        seq: 5,
        kind: kind::INIT,
        content: ByteString::from_slice(alloc, content)?,
    })?;
    let hash = chain_end(base_hash(), &entries);
    let sig = signed(alloc, node, 5, hash)?;
    let item = Item::segment(NodeId(1), base_hash(), entries, sig)?;
    Ok(Box::new(alloc, item)?)
}

/// What is told of node 1's statement of the number and zeros beside that segment of INIT.
fn answer_to_segment(alloc: Global, node: &mut Node, seq: u64) -> Result<Answer, Fail> {
    let auth = signed_auth(alloc, node, seq, ZEROS)?;
    let segment = log_segment(alloc, node, &[0, 0, 0, 1])?;
    let proof = auth_segment(auth, segment)?;
    Ok(answer_to(alloc, &node.directory, &proof))
}

/// The same of the statements of the numbers 5, 0 and 6.
fn answers_beside_segments(alloc: Global, node: &mut Node) -> Result<[Answer; 3], Fail> {
    Ok([
        answer_to_segment(alloc, node, 5)?,
        answer_to_segment(alloc, node, 0)?,
        answer_to_segment(alloc, node, 6)?,
    ])
}

#[test]
fn a_contradiction_convicts(rt: HostRuntime) -> Result<(), Fail> {
    let mut node = make_node(rt.alloc())?;
    let expected = [
        Answer::Convicted(1),
        Answer::Convicted(1),
        Answer::Refused(50),
    ];
    assert_eq!(rt; answers_beside_segments(rt.alloc(), &mut node)?, expected);
    Ok(())
}

/// What is told of the segment of INIT with this content.
fn answer_to_log(alloc: Global, node: &mut Node, content: &[u8]) -> Result<Answer, Fail> {
    let segment = log_segment(alloc, node, content)?;
    let proof = nonconforming(segment)?;
    Ok(answer_to(alloc, &node.directory, &proof))
}

/// The same of the content that INIT is to have, of another, and of a segment that is not signed.
fn answers_to_logs(alloc: Global, node: &mut Node) -> Result<[Answer; 3], Fail> {
    Ok([
        answer_to_log(alloc, node, &[0, 0, 0, 1])?,
        answer_to_log(alloc, node, &[0, 0, 0, 2])?,
        answer_to_unsigned(alloc, node, 3)?,
    ])
}

#[test]
fn a_deviation_convicts(rt: HostRuntime) -> Result<(), Fail> {
    let mut node = make_node(rt.alloc())?;
    let expected = [
        Answer::Refused(51),
        Answer::Convicted(1),
        Answer::Refused(47),
    ];
    assert_eq!(rt; answers_to_logs(rt.alloc(), &mut node)?, expected);
    Ok(())
}

/// A segment without entries and without a signature, which takes no memory.
fn bare_segment(alloc: Global) -> Result<Item, Fail> {
    Ok(Item::segment(NodeId(1), ZEROS, Vec::new(alloc), no_bytes(alloc))?)
}

/// The same of a statement.
fn bare_auth(alloc: Global) -> Result<Item, Fail> {
    Ok(Item::auth(Authenticator {
        node: NodeId(1),
        seq: 5,
        hash: ZEROS,
        sig: no_bytes(alloc),
    })?)
}

/// What is told of these two under a directory that lists no node. All growth of memory is that of checking.
fn answer_to_bare_two(alloc: Global) -> Result<Answer, Fail> {
    let auth = bare_auth(alloc)?;
    let proof = Proof::auth_segment(auth, bare_segment(alloc)?)?;
    Ok(answer_to(alloc, &Directory::new(alloc), &proof))
}

/// The same of the segment.
fn answer_to_bare_one(alloc: Global) -> Result<Answer, Fail> {
    let proof = Proof::nonconforming(bare_segment(alloc)?)?;
    Ok(answer_to(alloc, &Directory::new(alloc), &proof))
}

#[test]
fn an_early_fault_is_told_without_memory(rt: HostRuntime) -> Result<(), Fail> {
    assert_eq!(rt;
        [
            answer_to_bare_two(rt.alloc())?,
            answer_to_bare_one(rt.alloc())?
        ],
        [Answer::Refused(44); 2]
    );
    Ok(())
}
